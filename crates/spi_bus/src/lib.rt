// SPI: what an exchange measures and gives, and its writer.
#![tactic(auto)]

ghost use Rattle.std.specs.Prelude.{◌≡◌, ◌≤◌, ◌<◌, length, ◌∷◌};
ghost use Rattle.wire.specs.Action.{bytes_of, sck};
ghost use Rattle.wire.specs.Buffer.{Written};
ghost use Rattle.packet.specs.Packet.{width, sent};
ghost use Rattle.packet.specs.Shift.{exchanged};
ghost use Rattle.lines.specs.Lines.{driven, for_each, levels};
ghost use Rattle.lines.specs.Waves.{measure_of};
ghost use Rattle.spi_bus.specs.Spi.{spi_bit, spi_exchange, packet_after};

use lines::actions::{driven, sampled};
use lines::{Measured, readings};
use packet::Register;
use registers::{Page, parts};
use wire::Action;

const SCK: u8 = wire::LINE_SCK;

const MOSI: u8 = wire::LINE_MOSI;

const MISO: u8 = wire::LINE_MISO;

// SCK brought to rest, and then a bit at a time.
const REST_ACTIONS: usize = 1;

const BIT_ACTIONS: usize = 4;

// 46: an exchange of N bits. The caller shows that the size register is in range.
pub fn measure_exchange(page: Page) -> Measured
    requires { page.size < width }
    ensures { result ≡ measure_of (spi_exchange page) }
{
    let n = parts::bits_of(page.size) as usize;
    Measured {
        used: n,
        bytes: wire::ACTION_BYTES * (REST_ACTIONS + BIT_ACTIONS * n),
        byte: 0,
    }
}

// One bit exchanged: with CPHA 0 the sample stands before the clock's return, with CPHA 1 after it.
fn bit_row(polarity: u8, phase: bool, bit: u8) -> [Action; 4]
    requires { (polarity < 2) × (bit < 2) }
    ensures { result ≡ spi_bit polarity phase bit }
{
    let away = driven(SCK, 1 - polarity);
    let back = driven(SCK, polarity);
    let data = driven(MOSI, bit);
    let sample = sampled(MISO);
    if phase {
        [away, data, back, sample]
    } else {
        [data, away, sample, back]
    }
}

// SCK to CPOL, and then n bits exchanged: whole bytes, eight bits each, and those that are left. (Each bit by itself out of the
// register would take 55.1 instructions for a byte of exchanges, not 46.7.)
fn put_bits(out: &mut [u8], r: Register, n: u8, high: bool, polarity: u8, phase: bool) -> usize
    requires { (n ≤ width) × ((polarity < 2) × (length (bytes_of (driven sck polarity ∷ for_each (spi_bit polarity phase) (sent n high r))) ≤ length out.old)) }
    ensures { Written out.old 0 (bytes_of (driven sck polarity ∷ for_each (spi_bit polarity phase) (sent n high r))) out.new result }
{
    let mut at = wire::put_actions(out, &[driven(SCK, polarity)]);
    let whole = n / 8;
    for k in 0..whole {
        let byte = packet::byte_to_send(r, 8 * k, high);
        for j in 0..8 {
            let bit = packet::bit_of_byte(byte, j, high);
            at += wire::put_actions(&mut out[at..], &bit_row(polarity, phase, bit));
        }
    }
    for i in 8 * whole..n {
        let bit = packet::bit_within(r, i, high);
        at += wire::put_actions(&mut out[at..], &bit_row(polarity, phase, bit));
    }
    at
}

// Writes the actions of an exchange, for which the caller shows the room and that the size register is in range.
pub fn put_exchange(out: &mut [u8], page: Page) -> usize
    requires { (page.size < width) × (length (bytes_of (spi_exchange page).actions) ≤ length out.old) }
    ensures { Written out.old 0 (bytes_of (spi_exchange page).actions) out.new result }
{
    let r = page.packet;
    let n = parts::bits_of(page.size);
    let high = parts::high_first(page.config);
    let polarity = parts::clock_polarity(page.config);
    let phase = parts::clock_phase(page.config);
    put_bits(out, r, n, high, polarity, phase)
}

// The shift register after an exchange of n bits: the lowest byte has the last eight levels in order, and so on upward.
// The caller shows that the register has so many bits.
fn exchange(r: Register, samples: &[u8], n: u8, high: bool) -> Register
    requires { n ≤ width }
    ensures { result ≡ exchanged width high (levels samples.now 0 n) r }
{
    let mut q = r;
    let mut end = n;
    for i in (0..packet::BYTES).rev() {
        let first = packet::above_byte(end);
        q[i] = readings::number_of(samples, n, first, end, high);
        end = first;
    }
    q
}

// The packet register after an exchange. The caller shows that the size register is in range.
pub fn packet_after(page: Page, samples: &[u8]) -> Register
    requires { page.size < width }
    ensures { result ≡ packet_after page samples.now 0 }
{
    let r = page.packet;
    let n = parts::bits_of(page.size);
    let high = parts::high_first(page.config);
    exchange(r, samples, n, high)
}
