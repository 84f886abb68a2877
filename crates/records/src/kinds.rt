// The kinds of records, by their numbers in a file.
ghost use Rattle.std.specs.Prelude.{◌≡◌};
ghost use Rattle.records.specs.Kinds.{kind_of, output_kind_of};

use refusals::Refusal;

// The kinds of a session's records.
#[derive(Clone, Copy)]
pub enum Kind {
    Bytes = 1,
    Fault = 2,
    Samples = 3,
}

impl TryFrom<usize> for Kind {
    type Error = Refusal;

    ghost try_from_gives = { λ number r. r ≡ kind_of number };

    fn try_from(number: usize) -> Result<Kind, Refusal> {
        match number {
            1 => Ok(Kind::Bytes),
            2 => Ok(Kind::Fault),
            3 => Ok(Kind::Samples),
            _ => Err(Refusal::Kind),
        }
    }
}

// The kinds of the records that a replay writes.
#[derive(Clone, Copy)]
pub enum OutputKind {
    Replies = 0x0101,
    Actions = 0x0102,
    Last = 0x0104,
    Refusal = 0x01FF,
}

impl TryFrom<usize> for OutputKind {
    type Error = Refusal;

    ghost try_from_gives = { λ number r. r ≡ output_kind_of number };

    fn try_from(number: usize) -> Result<OutputKind, Refusal> {
        match number {
            0x0101 => Ok(OutputKind::Replies),
            0x0102 => Ok(OutputKind::Actions),
            0x0104 => Ok(OutputKind::Last),
            0x01FF => Ok(OutputKind::Refusal),
            _ => Err(Refusal::Kind),
        }
    }
}
