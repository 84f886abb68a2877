// The bottom layer: actions on the lines, lent buffers that they are written to, and lent samples.
#![tactic(auto)]

ghost use Rattle.std.specs.Prelude.{◌≡◌, ◌+◌, ◌≤◌, length};
ghost use Rattle.wire.specs.Action.{action, action_bytes, bytes_of};
ghost use Rattle.wire.specs.Buffer.{Written, fits_in};
ghost use Rattle.wire.specs.Sample.{byte_at, level_at};

// An action's verb; like its line a number and no enum, since `action` in the definitions has them so, C is handed these bytes, and
// what reads actions back meets any verb.
pub const VERB_RELEASE: u8 = 0;

pub const VERB_DRIVE_LOW: u8 = 1;

pub const VERB_DRIVE_HIGH: u8 = 2;

pub const VERB_SAMPLE_LINE: u8 = 3;

pub const VERB_WAIT_MICROSECONDS: u8 = 4;

pub const VERB_DIRECTION: u8 = 5;

pub const VERB_LATCH: u8 = 6;

pub const VERB_SAMPLE_PORT: u8 = 7;

pub const VERB_WAIT_MILLISECONDS: u8 = 8;

pub const VERB_WAIT_CYCLES: u8 = 9;

// An action's line; the unused field of an action that has none is 0.
pub const LINE_SCL: u8 = 0;

pub const LINE_SDA: u8 = 1;

pub const LINE_CS: u8 = 2;

pub const LINE_SCK: u8 = 3;

pub const LINE_MOSI: u8 = 4;

pub const LINE_MISO: u8 = 5;

pub const LINE_SS: u8 = 6;

pub const LINE_DQ: u8 = 7;

pub const LINE_PB7: u8 = 8;

pub const LINE_PORT_B: u8 = 16;

pub const LINE_PORT_C: u8 = 17;

pub const LINE_PORT_D: u8 = 18;

pub const NO_LINE: u8 = 0;

// An action's size in bytes.
pub const ACTION_BYTES: usize = 4;

// An action on a line or a port; a field that it does not use is 0.
#[derive(Clone, Copy)]
pub struct Action {
    pub verb: u8,
    pub line: u8,
    pub value: u16,
}

impl Action {
    pub fn new(verb: u8, line: u8, value: u16) -> Action
        ensures { result ≡ action verb line value }
    {
        Action { verb, line, value }
    }
}

// Writes a row of bytes at a place of a lent buffer, and answers the place after them.
// The caller shows that they fit there.
pub fn put_bytes(out: &mut [u8], at: usize, row: &[u8]) -> usize
    requires { at + length row.now ≤ length out.old }
    ensures { Written out.old at row.now out.new result }
{
    let end = at + row.len();
    out[at..end].copy_from_slice(row);
    end
}

// Writes one action at the start of the unused part of a lent buffer, and answers its size. The caller shows that its four
// bytes fit there.
pub fn put_action(out: &mut [u8], verb: u8, line: u8, value: u16) -> usize
    requires { 4 ≤ length out.old }
    ensures { Written out.old 0 (action_bytes (action verb line value)) out.new result }
{
    let [low, high] = value.to_le_bytes();
    put_bytes(out, 0, &[verb, line, low, high])
}

// Writes actions in a row at the start of the unused part of a lent buffer, and answers how many bytes they are. The caller
// shows that they fit there.
pub fn put_actions(out: &mut [u8], row: &[Action]) -> usize
    requires { length (bytes_of row.now) ≤ length out.old }
    ensures { Written out.old 0 (bytes_of row.now) out.new result }
{
    let mut at = 0;
    for a in row {
        at += put_action(&mut out[at..], a.verb, a.line, a.value);
    }
    at
}

// Whether so many bytes fit after a mark; a mark past the end leaves room for nothing, not even for zero bytes.
pub fn fits(size: usize, mark: usize, need: usize) -> bool
    ensures { result ≡ fits_in size mark need }
{
    mark <= size && need <= size - mark
}

// The byte at a place of lent bytes, 0 past the end. A port's sample is this byte as it stands.
pub fn byte_at(bytes: &[u8], at: usize) -> u8
    ensures { result ≡ byte_at bytes.now at }
{
    bytes.get(at).copied().unwrap_or(0)
}

// The level of a line by the sample at a place: 0 for low, 1 for high; low past the end.
pub fn level_at(samples: &[u8], at: usize) -> u8
    ensures { result ≡ level_at samples.now at }
{
    u8::from(byte_at(samples, at) != 0)
}
