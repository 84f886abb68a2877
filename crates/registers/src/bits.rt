// A bit of a register set or cleared, the others as they were.
ghost use Rattle.std.specs.Prelude.{◌≡◌};
ghost use Rattle.registers.specs.Bits.{with_bit};

use crate::Bit;

// A bit set (on) or cleared.
pub fn with_bit(bit: Bit, on: bool, x: u8) -> u8
    ensures { result ≡ with_bit bit on x }
{
    let b = u8::from(on);
    match bit {
        Bit::Three => x % 8 + b * 8 + x / 16 * 16,
        Bit::Four => x % 16 + b * 16 + x / 32 * 32,
        Bit::Five => x % 32 + b * 32 + x / 64 * 64,
    }
}
