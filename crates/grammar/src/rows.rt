// What the command list says of a byte: after 1D, where `extended` is true, and between items. The flag stays beside the byte, since the
// judge's loop and the script's rows hold it so, and an enum of both would be made from it at each of their calls.
ghost use Rattle.std.specs.Prelude.{◌≡◌};
ghost use Rattle.grammar.specs.Scanner.{opening_of};
ghost use Rattle.grammar.specs.Following.{opening_in, operands_in};
ghost use Rattle.grammar.specs.Lookups.{accepts, is_of, needs_configured, code_of, change_of};

use crate::{Context, ContextChange, Interface};
use codes::{NO_CONFIGURATION, UNKNOWN_COMMAND, WRONG_INTERFACE};

// Whether a byte is a command of an interface.
#[tactic(auto, using(std::proofs::lemmas::Bool::Decides::nat_tests, crate::proofs::Bytes::is_of_byte))]
fn is_of(i: Interface, b: u8) -> bool
    ensures { result ≡ is_of i (opening_of b) }
{
    match i {
        Interface::I2C => matches!(b, 0x20..=0x27),
        Interface::SPI => matches!(b, 0x40..=0x4C),
        Interface::OneWire => matches!(b, 0x60..=0x6A),
    }
}

#[tactic(auto, using(std::proofs::lemmas::Bool::Decides::nat_tests, crate::proofs::Bytes::needs_configured_byte))]
fn needs_configured(b: u8) -> bool
    ensures { result ≡ needs_configured (opening_of b) }
{
    matches!(b, 0x41 | 0x44 | 0x46 | 0x4B | 0x4C)
}

// Whether a byte may begin an item: 00 to 1E are common, the others are the interface's.
#[tactic(auto, using(std::proofs::lemmas::Bool::Decides::nat_tests, crate::proofs::Bytes::begins_byte))]
fn may_begin(c: Context, b: u8) -> bool
    ensures { result ≡ accepts (opening_of b) c }
{
    if b < 0x1F {
        return true;
    }
    match c.interface {
        None => false,
        Some(Interface::SPI) if needs_configured(b) => c.configured,
        Some(i) => is_of(i, b),
    }
}

// Whether a byte is legal in a context: 01's "common, or of its interface", and configured where it must be.
#[tactic(auto, using(std::proofs::lemmas::Bool::Decides::nat_tests, crate::proofs::Bytes::listed_byte))]
pub(crate) fn is_legal(c: Context, b: u8, extended: bool) -> bool
    ensures { result ≡ accepts (opening_in b extended) c }
{
    if extended {
        return matches!(b, 0x01..=0x03 | 0x08..=0x0F);
    }
    may_begin(c, b)
}

// The code that the device returns for a byte that is not legal.
#[tactic(auto, using(std::proofs::lemmas::Bool::Decides::nat_tests, crate::proofs::Bytes::code_byte, crate::proofs::Bytes::unknown_byte))]
pub(crate) fn code_for(c: Context, b: u8, extended: bool) -> u8
    ensures { result ≡ code_of (opening_in b extended) c }
{
    if extended {
        return UNKNOWN_COMMAND;
    }
    if needs_configured(b) & (c.interface == Some(Interface::SPI)) {
        return NO_CONFIGURATION;
    }
    if is_of(Interface::I2C, b) | is_of(Interface::SPI, b) | is_of(Interface::OneWire, b) {
        return WRONG_INTERFACE;
    }
    UNKNOWN_COMMAND
}

// How many operands a byte has in a context; 1D's is its extended byte.
#[tactic(auto, using(std::proofs::lemmas::Bool::Decides::nat_tests, crate::proofs::Bytes::operands_byte, crate::proofs::Bytes::loads_byte))]
pub(crate) fn operands_of(c: Context, b: u8, extended: bool) -> u8
    ensures { result ≡ operands_in c b extended }
{
    if extended {
        if b == 0x0E {
            return 1;
        }
        return 0;
    }
    match b {
        0x0B | 0x0D | 0x0F | 0x11 | 0x13 | 0x15 | 0x1D | 0x22 | 0x40 | 0x42 | 0x61 | 0x63 | 0x67 =>
            1,
        0x65 => 9,
        0x44 | 0x4C => packet::bytes_for(c.bits),
        _ => 0,
    }
}

// What a byte's item does to the context.
#[tactic(auto, using(std::proofs::lemmas::Bool::Decides::nat_tests, crate::proofs::Bytes::change_byte, crate::proofs::Bytes::kept_byte))]
pub(crate) fn change_of(b: u8, extended: bool) -> ContextChange
    ensures { result ≡ change_of (opening_in b extended) }
{
    if extended {
        return ContextChange::Keep;
    }
    match b {
        0x00 => ContextChange::Clear,
        0x01 => ContextChange::Select(Some(Interface::I2C)),
        0x02 => ContextChange::Select(Some(Interface::SPI)),
        0x03 => ContextChange::Select(Some(Interface::OneWire)),
        0x40 => ContextChange::Configure,
        0x42 => ContextChange::Resize,
        _ => ContextChange::Keep,
    }
}
