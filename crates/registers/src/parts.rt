// The parts of the registers by name: the bits of COMMON_FLAGS and CONFIG_SPI, N and its bytes, and a state with one part replaced.
ghost use Rattle.std.specs.Prelude.{◌≡◌, ◌≤◌, ◌<◌};
ghost use Rattle.packet.specs.Packet.{width, packet_bytes};
ghost use Rattle.registers.specs.Ranges.{selected_count};
ghost use Rattle.registers.specs.Registers.{i2c_selected, spi_selected, one_wire_selected, reports_on, autoload_on, kept_flags, phase_of, polarity_of, high_first, bits_of, with_page, with_received, holding, held_with, timings_in};

use crate::{HELD, Page, State, TIMINGS, Wait};

// Whether COMMON_FLAGS select I2C.
pub fn i2c_selected(flags: u8) -> bool
    ensures { result ≡ i2c_selected flags }
{
    flags % 2 == 1
}

// Whether COMMON_FLAGS select SPI.
pub fn spi_selected(flags: u8) -> bool
    ensures { result ≡ spi_selected flags }
{
    flags / 2 % 2 == 1
}

// Whether COMMON_FLAGS select 1-Wire.
pub fn one_wire_selected(flags: u8) -> bool
    ensures { result ≡ one_wire_selected flags }
{
    flags / 4 % 2 == 1
}

// How many interfaces COMMON_FLAGS select.
pub fn selected_count(flags: u8) -> u8
    ensures { result ≡ selected_count flags }
{
    flags % 2 + flags / 2 % 2 + flags / 4 % 2
}

// Whether REPORTS_EN is set.
pub fn reports_on(flags: u8) -> bool
    ensures { result ≡ reports_on flags }
{
    flags / 8 % 2 == 1
}

// Whether AUTOLOAD_EN is set.
pub fn autoload_on(flags: u8) -> bool
    ensures { result ≡ autoload_on flags }
{
    flags / 16 % 2 == 1
}

// What 00 to 03 keep of COMMON_FLAGS: REPORTS_EN and AUTOLOAD_EN. The bound is what keeps a caller's sum with a flag in a byte.
pub fn kept_flags(flags: u8) -> u8
    ensures { (result ≡ kept_flags flags) × (result ≤ 24) }
{
    flags / 8 % 4 * 8
}

// CPHA of CONFIG_SPI.
pub fn clock_phase(config: u8) -> bool
    ensures { result ≡ phase_of config }
{
    config % 2 == 1
}

// CPOL of CONFIG_SPI, the level at which SCK rests.
pub fn clock_polarity(config: u8) -> u8
    ensures { (result ≡ polarity_of config) × (result < 2) }
{
    config / 2 % 2
}

// Whether CONFIG_SPI sends the high bit first.
pub fn high_first(config: u8) -> bool
    ensures { result ≡ high_first config }
{
    config / 4 % 2 == 1
}

// N of the size register. The caller shows that the register is in range.
pub fn bits_of(size: u8) -> u8
    requires { size < width }
    ensures { result ≡ bits_of size }
{
    size + 1
}

// How many bytes a packet of N bits takes, by the size register.
pub fn packet_bytes(size: u8) -> u8
    ensures { result ≡ packet_bytes (bits_of size) }
{
    size / 8 + 1
}

// The state with its page replaced. A struct update, `State { page, ..s }`, took 296 / 39 / 187 / 49 / 233 instructions a byte on the five
// loads (docs/PERFORMANCE.md) against 268 / 36 / 168 / 46 / 211.
pub fn with_page(mut s: State, page: Page) -> State
    ensures { result ≡ with_page s page }
{
    s.page = page;
    s
}

// The state with its packet register replaced.
pub fn with_packet(mut s: State, r: packet::Register) -> State
    ensures { result ≡ with_received s r }
{
    s.page.packet = r;
    s
}

// The state with its wait and the bytes held for it replaced.
pub fn with_wait(s: State, wait: Wait, held: [u8; HELD]) -> State
    ensures { result ≡ holding s wait held }
{
    State { wait, held, ..s }
}

// The bytes held with one more at its place; past the end nothing is stored.
pub fn with_byte(mut held: [u8; HELD], at: u8, byte: u8) -> [u8; HELD]
    ensures { result ≡ held_with held at byte }
{
    let i = at as usize;
    if i < HELD {
        held[i] = byte;
    }
    held
}

// The timings among the bytes held: the first nine.
pub fn timings_in(held: [u8; HELD]) -> [u8; TIMINGS]
    ensures { result ≡ timings_in held }
{
    let mut timings = [0u8; TIMINGS];
    timings.copy_from_slice(&held[..TIMINGS]);
    timings
}
