// Images of settings: the image of a page, whether an image is good, the page of an image, and the factory image.
#![tactic(auto)]

ghost use Rattle.std.specs.Prelude.{◌≡◌};
ghost use Rattle.settings.specs.Images.{image_tail, image_mark, image_of, good_registers, good_tail, is_good, spi_byte, page_of};

use registers::parts::{selected_count, spi_selected};
use registers::{IMAGE, Page};

// The image with which a session starts: nothing selected, every port register 0.
pub const FACTORY_IMAGE: [u8; IMAGE] = [0, 0, 0, 0, 0, 0, 0, 0xFF, 0xFF, 0xFF];

// The timings at switch-on.
const DEFAULT_TIMINGS: [u8; registers::TIMINGS] = [
    0x86, 0xC4, 0xCC, 0xBC, 0xBF, 0xF9, 0xBC, 0xBF, 0xC7,
];

// The last byte of the image of a page with SPI.
const CONFIGURED: u8 = 0x08;

const UNCONFIGURED: u8 = 0x00;

// Each of the last three bytes of an image without SPI.
const NO_SPI: u8 = 0xFF;

// A byte of the image's tail.
fn image_tail(flags: u8, x: u8) -> u8
    ensures { result ≡ image_tail flags x }
{
    if spi_selected(flags) { x } else { NO_SPI }
}

// The byte that says whether SPI is configured.
fn image_mark(configured: bool) -> u8
    ensures { result ≡ image_mark configured }
{
    if configured { CONFIGURED } else { UNCONFIGURED }
}

// The image of a page, as command 05 stores it.
pub fn image(p: Page) -> [u8; IMAGE]
    ensures { result ≡ image_of p }
{
    let a = image_tail(p.flags, p.config);
    let b = image_tail(p.flags, p.size);
    let c = image_tail(p.flags, image_mark(p.configured));
    [
        p.flags, p.ddrb, p.portb, p.ddrc, p.portc, p.ddrd, p.portd, a, b, c,
    ]
}

// (Beside the ranges of a page in `registers`: an image is no page, and has no size register without SPI.)
fn good_registers(flags: u8, ddrc: u8, portc: u8, ddrd: u8, portd: u8) -> bool
    ensures { result ≡ good_registers flags ddrc portc ddrd portd }
{
    (flags < 32)
        & (selected_count(flags) <= 1)
        & (ddrc < 64)
        & (portc < 64)
        & (ddrd % 4 == 0)
        & (portd % 4 == 0)
}

// The SPI settings in their ranges, or FF FF FF without SPI.
fn good_tail(spi: bool, config: u8, size: u8, mark: u8) -> bool
    ensures { result ≡ good_tail spi config size mark }
{
    if spi {
        return (config <= 7)
            & (size < packet::WIDTH)
            & ((mark == UNCONFIGURED) | (mark == CONFIGURED));
    }
    (config == NO_SPI) & (size == NO_SPI) & (mark == NO_SPI)
}

// Whether an image is good.
#[tactic(auto, unfolding(crate::specs::Images::is_good))]
pub fn is_good(i: &[u8]) -> bool
    ensures { result ≡ is_good i.now }
{
    if i.len() != IMAGE {
        return false;
    }
    let flags = i[0];
    let registers = good_registers(flags, i[3], i[4], i[5], i[6]);
    let tail = good_tail(spi_selected(flags), i[7], i[8], i[9]);
    registers & tail
}

// A byte of the SPI settings, 0 without SPI.
fn spi_byte(i: &[u8], at: usize) -> u8
    ensures { result ≡ spi_byte i.now at }
{
    if !spi_selected(wire::byte_at(i, 0)) {
        return 0;
    }
    wire::byte_at(i, at)
}

// The page of an image.
pub fn page(i: &[u8]) -> Page
    ensures { result ≡ page_of i.now }
{
    let mark = spi_byte(i, 9);
    Page {
        flags: wire::byte_at(i, 0),
        error: 0,
        ddrb: wire::byte_at(i, 1),
        portb: wire::byte_at(i, 2),
        ddrc: wire::byte_at(i, 3),
        portc: wire::byte_at(i, 4),
        ddrd: wire::byte_at(i, 5),
        portd: wire::byte_at(i, 6),
        config: spi_byte(i, 7),
        configured: mark == CONFIGURED,
        size: spi_byte(i, 8),
        packet: [0; packet::BYTES],
        timings: DEFAULT_TIMINGS,
    }
}
