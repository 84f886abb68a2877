// Whether a command is legal in a state: the one place that says so.
ghost use Rattle.std.specs.Prelude.{◌≡◌};
ghost use Rattle.commands.specs.Legality.{is_listed, is_selected, needs_configuration, legality_of};

use crate::{Command, SpiCommand};
use registers::parts::{i2c_selected, one_wire_selected, spi_selected};

// Whether it is a command at all.
fn is_listed(c: Option<Command>) -> bool
    ensures { result ≡ is_listed c }
{
    c.is_some()
}

// Whether a command is common, or of the interface that is selected; what is no command is neither.
pub fn is_selected(flags: u8, c: Option<Command>) -> bool
    ensures { result ≡ is_selected flags c }
{
    match c {
        Some(Command::Common(_) | Command::Extended(_)) => true,
        Some(Command::I2c(_)) => i2c_selected(flags),
        Some(Command::Spi(_)) => spi_selected(flags),
        Some(Command::OneWire(_)) => one_wire_selected(flags),
        None => false,
    }
}

// Whether a command needs SPI to be configured: 41, 44, 46, 4B, 4C.
fn needs_configuration(c: Option<Command>) -> bool
    ensures { result ≡ needs_configuration c }
{
    matches!(
        c,
        Some(Command::Spi(
            SpiCommand::ReadConfig
                | SpiCommand::LoadPacket(_)
                | SpiCommand::StartExchange
                | SpiCommand::ExchangeAndRead
        ))
    )
}

// Whether a byte's command is legal on a page, or the code that rejects it.
pub fn legality_of(flags: u8, configured: bool, c: Option<Command>) -> Result<(), u8>
    ensures { result ≡ legality_of flags configured c }
{
    if !is_listed(c) {
        return Err(codes::UNKNOWN_COMMAND);
    }
    if !is_selected(flags, c) {
        return Err(codes::WRONG_INTERFACE);
    }
    if needs_configuration(c) & !configured {
        return Err(codes::NO_CONFIGURATION);
    }
    Ok(())
}
