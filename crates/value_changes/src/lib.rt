// The value changes of a dump as text, which is collected in a lent buffer, so that an event is written by one call. What goes to
// standard output no contract can say; each says what is collected then.
#![tactic(auto)]

ghost use Rattle.std.specs.Prelude.{◌≡◌, ◌<◌, Err, length};
ghost use Rattle.value_changes.specs.Collected.{collect, collect_all, contents};
ghost use Rattle.value_changes.specs.Rows.{Timed, level_row, register_row, bit_row, bit_rows};

use streams::STDOUT;

// The bits of a register.
const BITS: usize = 8;

// Text that is not written yet: a lent buffer, and how much of it is collected. Each method keeps the buffer, so that who lent it knows
// what it holds then.
#[derive(Drop)]
pub struct Collected<'a> {
    pub text: &'a mut [u8],
    pub used: usize,
}

// Text that could not be written.
#[derive(Clone, Copy, Debug)]
pub struct Unwritten;

impl<'a> Collected<'a> {
    // Writes out what is collected. More than there is cannot be written.
    fn send(&self) -> Result<(), Unwritten>
        ensures { length self.now.text.now < self.now.used → result ≡ Err (record {}) }
    {
        if self.used <= self.text.len() && io::write_all(STDOUT, &self.text[..self.used]) {
            return Ok(());
        }
        Err(Unwritten)
    }

    // Writes out what is collected; then nothing is.
    pub fn flush(&mut self) -> Result<(), Unwritten>
        ensures same_buffer { self.new.text.ghost_name ≡ self.old.text.ghost_name }
        ensures emptied { contents self.new ≡ (self.old.text.now, 0) }
        ensures past_end { length self.old.text.now < self.old.used → result ≡ Err (record {}) }
    {
        let sent = self.send();
        self.used = 0;
        sent
    }

    // Puts a row of bytes after what is collected; what does not fit goes out at once.
    pub fn put(&mut self, row: &[u8])
        ensures same_buffer { self.new.text.ghost_name ≡ self.old.text.ghost_name }
        ensures collected { contents self.new ≡ collect (contents self.old) row.now }
    {
        let used = self.used;
        if wire::fits(self.text.len(), used, row.len()) {
            self.used = wire::put_bytes(self.text, used, row);
            return;
        }
        let _ = self.flush();
        streams::say(row);
    }

    // A line that says the time from which on the next changes hold.
    pub fn put_time(&mut self, time: u64)
        ensures same_buffer { self.new.text.ghost_name ≡ self.old.text.ghost_name }
        ensures collected { Timed time (contents self.old) (contents self.new) }
    {
        let mut digits = [0u8; 20];
        let n = io::decimal(time, &mut digits);
        self.put(b"#");
        self.put(&digits[..n]);
        self.put(b"\n");
    }

    // A line's level, `0`, `1` or `z`, with its identifier.
    pub fn put_level(&mut self, level: u8, identifier: u8)
        ensures same_buffer { self.new.text.ghost_name ≡ self.old.text.ghost_name }
        ensures collected { contents self.new ≡ collect (contents self.old) (level_row level identifier) }
    {
        self.put(&[level, identifier, b'\n']);
    }

    // A register's byte in binary digits, the high bit first, with its identifier.
    pub fn put_register(&mut self, byte: u8, identifier: u8)
        ensures same_buffer { self.new.text.ghost_name ≡ self.old.text.ghost_name }
        ensures collected { contents self.new ≡ collect (contents self.old) (register_row byte identifier) }
    {
        let mut row = *b"b00000000  \n";
        row[BITS + 2] = identifier;
        for bit in 0..BITS {
            row[BITS - bit] = b'0' + (byte >> bit) % 2;
        }
        self.put(&row);
    }

    // A bit of a register if it changed, with the register's identifier and its number.
    fn put_bit(&mut self, old: u8, new: u8, identifier: u8, number: u8)
        ensures same_buffer { self.new.text.ghost_name ≡ self.old.text.ghost_name }
        ensures collected { contents self.new ≡ collect_all (contents self.old) (bit_row old new identifier number) }
    {
        if old % 2 != new % 2 {
            self.put(&[b'0' + new % 2, identifier, number, b'\n']);
        }
    }

    // The bits of a register that changed, the low one first.
    pub fn put_bits(&mut self, old: u8, new: u8, identifier: u8)
        ensures same_buffer { self.new.text.ghost_name ≡ self.old.text.ghost_name }
        ensures collected { contents self.new ≡ collect_all (contents self.old) (bit_rows 8 0x30 old new identifier) }
    {
        let mut before = old;
        let mut after = new;
        for number in b'0'..b'8' {
            self.put_bit(before, after, identifier, number);
            before /= 2;
            after /= 2;
        }
    }
}
