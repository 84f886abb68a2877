// The items of a session by name: which command a byte is, and the one whose operand is waited for.
use crate::text::{say, say_count};
use commands::checks::is_selected;
use commands::decoding::{command_of, extended_command_of};
use registers::{Operand, PortRegister, State, Wait};

fn say_name(row: usize) {
    say(padding::trimmed(&names::name(row)));
}

// The code of the command whose operand it is, and whether that comes after 1D.
fn command_code(o: Operand) -> (u8, bool) {
    match o {
        Operand::ToPort(PortRegister::Ddrb) => (0x0B, false),
        Operand::ToPort(PortRegister::Portb) => (0x0D, false),
        Operand::ToPort(PortRegister::Ddrc) => (0x0F, false),
        Operand::ToPort(PortRegister::Portc) => (0x11, false),
        Operand::ToPort(PortRegister::Ddrd) => (0x13, false),
        Operand::ToPort(PortRegister::Portd) => (0x15, false),
        Operand::ToCycles => (0x0E, true),
        Operand::ToI2c => (0x22, false),
        Operand::ToConfig => (0x40, false),
        Operand::ToSize => (0x42, false),
        Operand::ToOneWire => (0x61, false),
        Operand::ToOneWireBit => (0x63, false),
        Operand::ToOneWireStrong => (0x67, false),
    }
}

fn say_operand(o: Operand) {
    let (code, extended) = command_code(o);
    say(b"operand of ");
    if let Some(row) = names::find(code, extended) {
        say_name(row);
    }
}

// The command that a byte is, between commands or after 1D.
fn say_command(extended: bool, byte: u8, flags: u8) {
    let Some(row) = names::find(byte, extended) else {
        say(b"unknown");
        return;
    };
    say_name(row);
    let c = if extended {
        extended_command_of(byte)
    } else {
        command_of(byte)
    };
    if !is_selected(flags, c) {
        say(b" without its interface");
    }
}

// What a byte is to a bridge in a state.
pub fn say_byte(s: State, byte: u8) {
    if s.drop {
        say(b"dropped");
        return;
    }
    match s.wait {
        Wait::Nothing => say_command(false, byte, s.page.flags),
        Wait::One(o) => say_operand(o),
        Wait::Extended => say_command(true, byte, s.page.flags),
        Wait::Packet {
            left: _,
            exchange: _,
        } => say(b"packet byte"),
        Wait::Timings { left: _ } => say(b"timing byte"),
    }
}

fn say_packet(left: u8, exchange: bool) {
    say(b"waits for ");
    say_count(left as usize, b" packet byte");
    if exchange {
        say(b", then exchanges");
    }
}

// What is waited for, `idle` if nothing; or that the next byte is dropped.
pub fn say_wait(s: State) {
    if s.drop {
        say(b"drops the next byte");
        return;
    }
    match s.wait {
        Wait::Nothing => say(b"idle"),
        Wait::One(o) => {
            say(b"waits for the ");
            say_operand(o);
        }
        Wait::Extended => say(b"waits for an extended command"),
        Wait::Packet { left, exchange } => say_packet(left, exchange),
        Wait::Timings { left } => {
            say(b"waits for ");
            say_count(left as usize, b" timing byte");
        }
    }
}
