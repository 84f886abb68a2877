// The commands that 01 lists: which byte is which, and whether a command is legal.
#![tactic(auto)]

pub mod checks;
pub mod decoding;

use registers::{Bit, PortRegister};

// A command of any section of 01.
#[derive(Clone, Copy)]
pub enum Command {
    Common(CommonCommand),
    Extended(ExtendedCommand),
    I2c(I2cCommand),
    Spi(SpiCommand),
    OneWire(OneWireCommand),
}

// The common commands by 001's names.
#[derive(Clone, Copy)]
pub enum CommonCommand {
    ResetDevice,
    SelectI2c,
    SelectSpi,
    SelectOneWire,
    ReadError,
    SaveToEprom,
    ReadFromEprom,
    SetReports(bool),
    SetAutoload(bool),
    SetupPort(PortRegister),
    ReadPort(PortRegister),
    ReadPins(u8),
    ReadFlags,
    ReadVersion,
    SetIog,
    DoExtended,
    ReadSerial,
}

// The commands after 1D; a pulse takes a bit of a port's latch to a level and back, after a wait by its unit and count.
#[derive(Clone, Copy)]
pub enum ExtendedCommand {
    Pulse(PortRegister, Bit, bool, u8, u8),
    SetBit(PortRegister, Bit, bool),
    LoadCycles,
    ReadCycles,
}

// The commands of I2C; a read carries its answering bit.
#[derive(Clone, Copy)]
pub enum I2cCommand {
    SendStart,
    SendStop,
    SendByte,
    ReadByte(u8),
    DriveCs(u8),
    ReadCs,
}

// The commands of SPI; a load carries whether an exchange follows.
#[derive(Clone, Copy)]
pub enum SpiCommand {
    LoadConfig,
    ReadConfig,
    LoadSize,
    ReadSize,
    LoadPacket(bool),
    ReadPacket,
    StartExchange,
    DriveSs(u8),
    ReadSs,
    ReadLow,
    ExchangeAndRead,
}

// The commands of 1-Wire.
#[derive(Clone, Copy)]
pub enum OneWireCommand {
    SendReset,
    SendByte,
    SendBit,
    SendStrong,
    ReadByte,
    ReadBit,
    LoadTimings,
    ReadTimings,
    ReleaseDq,
    PulsePb7 { unit: u8, wait: u16 },
}
