// What an event decides: a byte by what is waited for, or a line fault.
ghost use Rattle.std.specs.Prelude.{◌≡◌, cond, ◌<◌};
ghost use Rattle.packet.specs.Packet.{width};
ghost use Rattle.registers.specs.Ranges.{InRange};
ghost use Rattle.decisions.specs.Decisions.{dropped};
ghost use Rattle.decisions.specs.Events.{clause_of, command_decision, byte_decision};

use crate::kinds::{dropping, returning};
use crate::rejections::rejected;
use crate::{Decision, common, extended, i2c, one_wire, operands, packets, spi, timings};
use commands::Command;
use commands::checks::legality_of;
use commands::decoding::{command_of, extended_command_of};
use registers::{State, Wait};

// What a legal command decides. The caller shows that the size register is in range.
fn clause_of(s: State, c: Command) -> Decision
    requires { s.page.size < width }
    ensures { result ≡ clause_of s c }
{
    match c {
        Command::Common(k) => common::clause(s, k),
        Command::Extended(k) => extended::clause(s, k),
        Command::I2c(k) => i2c::clause(k),
        Command::Spi(k) => spi::clause(s.page.config, s.page.size, k),
        Command::OneWire(k) => one_wire::clause(k),
    }
}

// A byte between commands or after 1D, by the command that it is.
fn command(s: State, c: Option<Command>) -> Decision
    requires { s.page.size < width }
    ensures { result ≡ command_decision s c }
{
    // asked before legality, which rejects it on every page, since three codes at one return cost each legal command instructions
    let Some(c) = c else {
        return returning(codes::UNKNOWN_COMMAND);
    };
    match legality_of(s.page.flags, s.page.configured, Some(c)) {
        Ok(()) => clause_of(s, c),
        Err(code) => rejected(c, code),
    }
}

// A byte, dropped or by what is waited for. The caller shows that the state breaks no range.
pub(crate) fn byte(s: State, x: u8) -> Decision
    requires { InRange s }
    ensures { result ≡ cond s.drop dropped (byte_decision s s.wait x) }
{
    if s.drop {
        return dropping();
    }
    let w = s.wait;
    match w {
        // one call for both, since one for each costs packets 4 instructions in a hundred
        Wait::Nothing | Wait::Extended => {
            let after_1d = matches!(w, Wait::Extended);
            command(
                s,
                if after_1d {
                    extended_command_of(x)
                } else {
                    command_of(x)
                },
            )
        }
        Wait::One(o) => operands::clause(s, o, x),
        Wait::Packet { left, exchange } => packets::packet_byte(s.page.size, left, exchange, x),
        Wait::Timings { left } => timings::timing_byte(left, x),
    }
}
