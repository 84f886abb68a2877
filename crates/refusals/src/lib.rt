// The refusals of 01 in its order, each with its number and in words.
#![tactic(auto)]

ghost use Rattle.padding.specs.Padding.{padded};
ghost use Rattle.std.specs.Prelude.{◌≡◌, ◌≤◌, length};
ghost use Rattle.refusals.specs.Refusals.{number_of, text_of, words_of, words_width};

// Why a call is refused, or a session can't be replayed further; `number_of` in the definitions gives each its number.
#[derive(Clone, Copy)]
pub enum Refusal {
    Ranges = 1,
    Samples = 2,
    Actions = 3,
    Replies = 4,
    Header = 5,
    Length = 6,
    Passes = 7,
    Kind = 8,
    FaultBody = 9,
    Size = 10,
    Factory = 11,
    Waits = 12,
}

// A refusal's number in 01.
impl From<Refusal> for u8 {
    ghost from_gives = { λ r n. n ≡ number_of r };

    fn from(r: Refusal) -> u8 {
        r as u8
    }
}

// The width of the widest words.
pub const WORDS_WIDTH: usize = 49;

// The refusal of a number in words; no text for a number that is no refusal's.
pub fn words(number: usize) -> &'static [u8]
    ensures text { result.now ≡ text_of number }
    ensures in_table { padded words_width result.now ≡ words_of number }
    ensures within { length result.now ≤ words_width }
{
    match number {
        1 => b"the state breaks its ranges",
        2 => b"fewer samples are left than the event uses",
        3 => b"the actions do not fit",
        4 => b"the replies do not fit",
        5 => b"1 to 3 bytes left where a record header should be",
        6 => b"record length over 4,096",
        7 => b"record body passes the end",
        8 => b"unknown kind",
        9 => b"a fault body is not one byte of 81, 82, 83 hex",
        10 => b"session over 32,768 bytes",
        11 => b"factory image not good",
        12 => b"judge's start waits for something or drops a byte",
        _ => b"",
    }
}
