// Every command that 01 lists, by its byte.
ghost use Rattle.std.specs.Prelude.{◌≡◌};
ghost use Rattle.commands.specs.Commands.{command_of, extended_command_of};

use crate::{Command, CommonCommand, ExtendedCommand, I2cCommand, OneWireCommand, SpiCommand};
use registers::{Bit, PortRegister};

// The level that a pulse begins with.
const UP: bool = true;

const DOWN: bool = false;

const MICROSECONDS: u8 = wire::VERB_WAIT_MICROSECONDS;

const MILLISECONDS: u8 = wire::VERB_WAIT_MILLISECONDS;

// The command of a byte between commands, if 01 lists one. It is longer than other functions because it is the list itself, a row a
// command.
pub fn command_of(b: u8) -> Option<Command>
    ensures { result ≡ command_of b }
{
    let c = match b {
        0x00 => Command::Common(CommonCommand::ResetDevice),
        0x01 => Command::Common(CommonCommand::SelectI2c),
        0x02 => Command::Common(CommonCommand::SelectSpi),
        0x03 => Command::Common(CommonCommand::SelectOneWire),
        0x04 => Command::Common(CommonCommand::ReadError),
        0x05 => Command::Common(CommonCommand::SaveToEprom),
        0x06 => Command::Common(CommonCommand::ReadFromEprom),
        0x07 => Command::Common(CommonCommand::SetReports(true)),
        0x08 => Command::Common(CommonCommand::SetReports(false)),
        0x09 => Command::Common(CommonCommand::SetAutoload(true)),
        0x0A => Command::Common(CommonCommand::SetAutoload(false)),
        0x0B => Command::Common(CommonCommand::SetupPort(PortRegister::Ddrb)),
        0x0C => Command::Common(CommonCommand::ReadPort(PortRegister::Ddrb)),
        0x0D => Command::Common(CommonCommand::SetupPort(PortRegister::Portb)),
        0x0E => Command::Common(CommonCommand::ReadPort(PortRegister::Portb)),
        0x0F => Command::Common(CommonCommand::SetupPort(PortRegister::Ddrc)),
        0x10 => Command::Common(CommonCommand::ReadPort(PortRegister::Ddrc)),
        0x11 => Command::Common(CommonCommand::SetupPort(PortRegister::Portc)),
        0x12 => Command::Common(CommonCommand::ReadPort(PortRegister::Portc)),
        0x13 => Command::Common(CommonCommand::SetupPort(PortRegister::Ddrd)),
        0x14 => Command::Common(CommonCommand::ReadPort(PortRegister::Ddrd)),
        0x15 => Command::Common(CommonCommand::SetupPort(PortRegister::Portd)),
        0x16 => Command::Common(CommonCommand::ReadPort(PortRegister::Portd)),
        0x17 => Command::Common(CommonCommand::ReadPins(wire::LINE_PORT_B)),
        0x18 => Command::Common(CommonCommand::ReadPins(wire::LINE_PORT_C)),
        0x19 => Command::Common(CommonCommand::ReadPins(wire::LINE_PORT_D)),
        0x1A => Command::Common(CommonCommand::ReadFlags),
        0x1B => Command::Common(CommonCommand::ReadVersion),
        0x1C => Command::Common(CommonCommand::SetIog),
        0x1D => Command::Common(CommonCommand::DoExtended),
        0x1E => Command::Common(CommonCommand::ReadSerial),
        0x20 => Command::I2c(I2cCommand::SendStart),
        0x21 => Command::I2c(I2cCommand::SendStop),
        0x22 => Command::I2c(I2cCommand::SendByte),
        0x23 => Command::I2c(I2cCommand::ReadByte(0)),
        0x24 => Command::I2c(I2cCommand::ReadByte(1)),
        0x25 => Command::I2c(I2cCommand::DriveCs(wire::VERB_DRIVE_LOW)),
        0x26 => Command::I2c(I2cCommand::DriveCs(wire::VERB_DRIVE_HIGH)),
        0x27 => Command::I2c(I2cCommand::ReadCs),
        0x40 => Command::Spi(SpiCommand::LoadConfig),
        0x41 => Command::Spi(SpiCommand::ReadConfig),
        0x42 => Command::Spi(SpiCommand::LoadSize),
        0x43 => Command::Spi(SpiCommand::ReadSize),
        0x44 => Command::Spi(SpiCommand::LoadPacket(false)),
        0x45 => Command::Spi(SpiCommand::ReadPacket),
        0x46 => Command::Spi(SpiCommand::StartExchange),
        0x47 => Command::Spi(SpiCommand::DriveSs(wire::VERB_DRIVE_LOW)),
        0x48 => Command::Spi(SpiCommand::DriveSs(wire::VERB_DRIVE_HIGH)),
        0x49 => Command::Spi(SpiCommand::ReadSs),
        0x4A => Command::Spi(SpiCommand::ReadLow),
        0x4B => Command::Spi(SpiCommand::ExchangeAndRead),
        0x4C => Command::Spi(SpiCommand::LoadPacket(true)),
        0x60 => Command::OneWire(OneWireCommand::SendReset),
        0x61 => Command::OneWire(OneWireCommand::SendByte),
        0x62 => Command::OneWire(OneWireCommand::ReadByte),
        0x63 => Command::OneWire(OneWireCommand::SendBit),
        0x64 => Command::OneWire(OneWireCommand::ReadBit),
        0x65 => Command::OneWire(OneWireCommand::LoadTimings),
        0x66 => Command::OneWire(OneWireCommand::ReadTimings),
        0x67 => Command::OneWire(OneWireCommand::SendStrong),
        0x68 => Command::OneWire(OneWireCommand::ReleaseDq),
        0x69 => Command::OneWire(OneWireCommand::PulsePb7 {
            unit: MICROSECONDS,
            wait: 580,
        }),
        0x6A => Command::OneWire(OneWireCommand::PulsePb7 {
            unit: MILLISECONDS,
            wait: 110,
        }),
        _ => return None,
    };
    Some(c)
}

// The command of a byte after 1D, if 01 lists one; the list itself too.
pub fn extended_command_of(b: u8) -> Option<Command>
    ensures { result ≡ extended_command_of b }
{
    let c = match b {
        0x01 => Command::Extended(ExtendedCommand::Pulse(
            PortRegister::Portc,
            Bit::Five,
            UP,
            MICROSECONDS,
            1,
        )),
        0x02 => Command::Extended(ExtendedCommand::Pulse(
            PortRegister::Portd,
            Bit::Three,
            UP,
            MICROSECONDS,
            1,
        )),
        0x03 => Command::Extended(ExtendedCommand::Pulse(
            PortRegister::Portd,
            Bit::Four,
            DOWN,
            MICROSECONDS,
            1,
        )),
        0x08 => Command::Extended(ExtendedCommand::Pulse(
            PortRegister::Portd,
            Bit::Four,
            DOWN,
            MILLISECONDS,
            25,
        )),
        0x09 => Command::Extended(ExtendedCommand::Pulse(
            PortRegister::Portd,
            Bit::Four,
            DOWN,
            MILLISECONDS,
            2,
        )),
        0x0A => Command::Extended(ExtendedCommand::SetBit(PortRegister::Portd, Bit::Five, true)),
        0x0B => Command::Extended(ExtendedCommand::SetBit(PortRegister::Portd, Bit::Five, false)),
        0x0C => Command::Extended(ExtendedCommand::SetBit(PortRegister::Ddrd, Bit::Five, true)),
        0x0D => Command::Extended(ExtendedCommand::SetBit(PortRegister::Ddrd, Bit::Five, false)),
        0x0E => Command::Extended(ExtendedCommand::LoadCycles),
        0x0F => Command::Extended(ExtendedCommand::ReadCycles),
        _ => return None,
    };
    Some(c)
}
