// What a dump shows: nine lines and the direction and latch registers of three ports, and when they change.
use actions::levels::{FREE, HIGH};
use value_changes::Collected;
use vcd_texts::header::write_header;

// How many lines there are; the variables after them are registers.
pub(crate) const LINES: usize = 9;

const VARIABLES: usize = 15;

// Those of the header, in the variables' order.
const IDENTIFIERS: [u8; VARIABLES] = *b"ABCDEFGHIJKLMNO";

pub(crate) const SCK: usize = wire::LINE_SCK as usize;

// A variable's value now and as it was last written: a line's level or a register's byte.
#[derive(Clone, Copy)]
struct Variable {
    now: u8,
    written: u8,
}

// The text that is not written yet, the session, and the place in it of the next sample; whether registers are written bit by bit, the
// level of a line that nobody drives and that of SCK before it is driven, which lines are driven, the variables, the time in microseconds
// and whether it is written.
#[derive(Drop)]
pub(crate) struct Dump<'a> {
    pub(crate) text: Collected<'a>,
    pub(crate) session: &'a [u8],
    pub(crate) sample: usize,
    bit_by_bit: bool,
    free: u8,
    clock: u8,
    driven: [bool; LINES],
    variables: [Variable; VARIABLES],
    time: u64,
    stamped: bool,
}

// No variable is written at first, which `x` says, and FF of a register, since it differs in every bit.
fn unwritten(free: u8) -> [Variable; VARIABLES] {
    let line = Variable {
        now: free,
        written: b'x',
    };
    let register = Variable {
        now: 0x00,
        written: 0xFF,
    };
    let mut variables = [register; VARIABLES];
    variables[..LINES].fill(line);
    variables
}

impl<'a> Dump<'a> {
    // The start of a dump: the time 0 is written. With pull-ups a free line is high, SCK as its clock begins, and registers are written
    // bit by bit.
    fn start(pull_up: bool, clock: u8, session: &'a [u8], text: &'a mut [u8]) -> Dump<'a> {
        let free = if pull_up { HIGH } else { FREE };
        let mut d = Dump {
            text: Collected { text, used: 0 },
            session,
            sample: 0,
            bit_by_bit: pull_up,
            free,
            clock,
            driven: [false; LINES],
            variables: unwritten(free),
            time: 0,
            stamped: true,
        };
        d.set(SCK, clock);
        d
    }

    // The dump up to the first values.
    pub(crate) fn begin(
        pull_up: bool,
        clock: u8,
        session: &'a [u8],
        text: &'a mut [u8],
    ) -> Dump<'a> {
        write_header(pull_up);
        let mut d = Dump::start(pull_up, clock, session, text);
        d.changes();
        d.text.put(b"$end\n");
        d
    }

    // The level of a line that nobody drives.
    pub(crate) fn free_level(&self, line: usize) -> u8 {
        if line == SCK { self.clock } else { self.free }
    }

    pub(crate) fn is_driven(&self, line: usize) -> bool {
        line < LINES && self.driven[line]
    }

    pub(crate) fn drive(&mut self, line: usize, driven: bool) {
        if line < LINES {
            self.driven[line] = driven;
        }
    }

    pub(crate) fn set(&mut self, variable: usize, value: u8) {
        if variable < VARIABLES {
            self.variables[variable].now = value;
        }
    }

    // Writes the time, unless it is written.
    pub(crate) fn stamp(&mut self) {
        if !self.stamped {
            self.text.put_time(self.time);
            self.stamped = true;
        }
    }

    // A variable's new value: a line's level, or a register's byte, of which bit by bit only what changed.
    fn put_value(&mut self, variable: usize, old: u8, value: u8) {
        let identifier = wire::byte_at(&IDENTIFIERS, variable);
        if variable < LINES {
            self.text.put_level(value, identifier);
        } else if self.bit_by_bit {
            self.text.put_bits(old, value, identifier);
        } else {
            self.text.put_register(value, identifier);
        }
    }

    // Writes what changed at this time, and the time before it.
    pub(crate) fn changes(&mut self) {
        for variable in 0..VARIABLES {
            let Variable { now, written } = self.variables[variable];
            if now != written {
                self.stamp();
                self.put_value(variable, written, now);
                self.variables[variable].written = now;
            }
        }
    }

    // Time goes on, and what changed before is written. A session's time stays far below 64 bits.
    pub(crate) fn go(&mut self, microseconds: u64) {
        if microseconds == 0 {
            return;
        }
        self.changes();
        self.time = std::num::wrapping_add_u64(self.time, microseconds);
        self.stamped = false;
    }
}
