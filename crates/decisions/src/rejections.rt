// What a rejected command decides.
ghost use Rattle.std.specs.Prelude.{◌≡◌};
ghost use Rattle.decisions.specs.Rejections.{reads_configuration, rejected_clause};

use crate::kinds::{returning, sending};
use crate::{Answer, Decision};
use commands::{Command, SpiCommand};

// Whether a command is 41, which sends its 40 whatever the reports.
fn reads_configuration(c: Command) -> bool
    ensures { result ≡ reads_configuration c }
{
    matches!(c, Command::Spi(SpiCommand::ReadConfig))
}

// What a rejected command decides: its code returned, and by 41 unconfigured sent too.
pub(crate) fn rejected(c: Command, code: u8) -> Decision
    ensures { result ≡ rejected_clause c code }
{
    if (code == codes::NO_CONFIGURATION) & reads_configuration(c) {
        return sending(Answer::ReturnsAndSends(code));
    }
    returning(code)
}
