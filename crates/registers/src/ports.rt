// The port registers: each by its name, with the action that carries it.
ghost use Rattle.std.specs.Prelude.{◌≡◌};
ghost use Rattle.registers.specs.Registers.{register_of, with_register, protected, verb_of, line_of};

use crate::{Page, PortRegister};

// A port register's contents.
pub fn port_register(p: Page, r: PortRegister) -> u8
    ensures { result ≡ register_of p r }
{
    match r {
        PortRegister::Ddrb => p.ddrb,
        PortRegister::Portb => p.portb,
        PortRegister::Ddrc => p.ddrc,
        PortRegister::Portc => p.portc,
        PortRegister::Ddrd => p.ddrd,
        PortRegister::Portd => p.portd,
    }
}

// The page with a port register stored as it is given.
pub fn store_register(mut p: Page, r: PortRegister, x: u8) -> Page
    ensures { result ≡ with_register p r x }
{
    match r {
        PortRegister::Ddrb => p.ddrb = x,
        PortRegister::Portb => p.portb = x,
        PortRegister::Ddrc => p.ddrc = x,
        PortRegister::Portc => p.portc = x,
        PortRegister::Ddrd => p.ddrd = x,
        PortRegister::Portd => p.portd = x,
    }
    p
}

fn keep_c(old: u8, new: u8) -> u8
    ensures { result ≡ protected PortRegister.Ddrc old new }
{
    new % 64 + old / 64 * 64
}

fn keep_d(old: u8, new: u8) -> u8
    ensures { result ≡ protected PortRegister.Ddrd old new }
{
    old % 4 + new / 4 % 8 * 4 + old / 32 % 2 * 32 + new / 64 * 64
}

// What a port register becomes where an operand is written to it: protected bits keep their old bits.
pub fn protect(r: PortRegister, old: u8, new: u8) -> u8
    ensures { result ≡ protected r old new }
{
    match r {
        PortRegister::Ddrb | PortRegister::Portb => new,
        PortRegister::Ddrc | PortRegister::Portc => keep_c(old, new),
        PortRegister::Ddrd | PortRegister::Portd => keep_d(old, new),
    }
}

// The verb of the action that carries a port register.
pub fn port_verb(r: PortRegister) -> u8
    ensures { result ≡ verb_of r }
{
    match r {
        PortRegister::Ddrb | PortRegister::Ddrc | PortRegister::Ddrd => wire::VERB_DIRECTION,
        PortRegister::Portb | PortRegister::Portc | PortRegister::Portd => wire::VERB_LATCH,
    }
}

// The line of the action that carries a port register.
pub fn port_line(r: PortRegister) -> u8
    ensures { result ≡ line_of r }
{
    match r {
        PortRegister::Ddrb | PortRegister::Portb => wire::LINE_PORT_B,
        PortRegister::Ddrc | PortRegister::Portc => wire::LINE_PORT_C,
        PortRegister::Ddrd | PortRegister::Portd => wire::LINE_PORT_D,
    }
}
