// Device codes: each by its name, and in words.
#![tactic(auto)]

ghost use Rattle.padding.specs.Padding.{padded};
ghost use Rattle.std.specs.Prelude.{◌≡◌, ◌≤◌, length};
ghost use Rattle.codes.specs.Codes.{text_of, words_of, words_width};

// The codes are numbers and no enum: ERROR holds any byte, and the definitions speak of the byte that is returned, stored and sent.
pub const NO_ERROR: u8 = 0x00;

pub const NO_ACKNOWLEDGE: u8 = 0x20;

pub const NO_CONFIGURATION: u8 = 0x40;

pub const NO_PRESENCE: u8 = 0x60;

pub const UNKNOWN_COMMAND: u8 = 0x80;

pub const FRAME: u8 = 0x81;

pub const OVERRUN: u8 = 0x82;

pub const PARITY: u8 = 0x83;

pub const WRONG_INTERFACE: u8 = 0x84;

// The width of the widest words.
pub const WORDS_WIDTH: usize = 20;

// A code in words; no text for a number that is no code.
pub fn words(code: u8) -> &'static [u8]
    ensures text { result.now ≡ text_of code }
    ensures in_table { padded words_width result.now ≡ words_of code }
    ensures within { length result.now ≤ words_width }
{
    match code {
        NO_ERROR => b"none",
        NO_ACKNOWLEDGE => b"no acknowledge",
        NO_CONFIGURATION => b"no SPI configuration",
        NO_PRESENCE => b"no presence",
        UNKNOWN_COMMAND => b"unknown command",
        FRAME => b"frame",
        OVERRUN => b"overrun",
        PARITY => b"parity",
        WRONG_INTERFACE => b"wrong interface",
        _ => b"",
    }
}
