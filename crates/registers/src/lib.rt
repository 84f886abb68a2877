// The state: one page of registers, what is shared, the wait with the bytes held for it, and whether the next byte is dropped.
#![tactic(auto)]

ghost use Rattle.std.specs.Prelude.{◌≡◌};
ghost use Rattle.registers.specs.Registers.{fault_code, fault_of, bits_of, is_idle};
ghost use Rattle.registers.specs.Ranges.{operand_fits, wait_fits, page_fits, drop_fits, state_fits};

pub mod bits;
pub mod parts;
pub mod ports;

use parts::{i2c_selected, one_wire_selected, packet_bytes, selected_count, spi_selected};

// How many timing bytes there are: three groups of three.
pub const TIMINGS: usize = 9;

// How many bytes an image of settings has, as the EPROM holds it.
pub const IMAGE: usize = 10;

// How many bytes the serial number has.
pub const SERIAL: usize = 4;

// Room for the bytes that a wait holds: a packet's, or the timings, which are more.
pub const HELD: usize = 9;

// The registers: COMMON_FLAGS, ERROR, the port registers, CONFIG_SPI, the configured mark, PAKET_SIZE, the packet register and the
// timings. Their order here says nothing; it is the one that compiles best. That the size is below the width is no invariant of the type,
// nor are the other ranges, since a call answers any state (`answer_of`): functions that need them ask for them.
#[derive(Clone, Copy)]
pub struct Page {
    pub flags: u8,
    pub size: u8,
    pub packet: [u8; packet::BYTES],
    pub ddrc: u8,
    pub config: u8,
    pub ddrd: u8,
    pub portd: u8,
    pub portc: u8,
    pub timings: [u8; TIMINGS],
    pub ddrb: u8,
    pub configured: bool,
    pub error: u8,
    pub portb: u8,
}

// What is not a register: the EPROM image, the version, the IOG count and the serial number, low byte first. Their order, too, is the one
// that compiles best.
#[derive(Clone, Copy)]
pub struct Shared {
    pub version: u8,
    pub serial: [u8; SERIAL],
    pub cycles: u8,
    pub eprom: [u8; IMAGE],
}

// A port's direction or latch register.
#[derive(Clone, Copy)]
pub enum PortRegister {
    Ddrb,
    Portb,
    Ddrc,
    Portc,
    Ddrd,
    Portd,
}

// The bits of a register that commands set and clear.
#[derive(Clone, Copy)]
pub enum Bit {
    Three,
    Four,
    Five,
}

// The operand that is waited for, by what it goes to. The order here and in `Wait` says nothing; it is the one that compiles best.
#[derive(Clone, Copy)]
pub enum Operand {
    ToPort(PortRegister),
    ToCycles,
    ToI2c,
    ToConfig,
    ToOneWireBit,
    ToOneWire,
    ToSize,
    ToOneWireStrong,
}

// What the bridge waits for: nothing, one operand, the byte after 1D, or so many more packet or timing bytes; `exchange` says
// that an exchange follows the packet.
#[derive(Clone, Copy)]
pub enum Wait {
    Nothing,
    Timings { left: u8 },
    One(Operand),
    Packet { left: u8, exchange: bool },
    Extended,
}

// The state; `held` has the packet or timing bytes that came in for the wait so far, and `drop` says that a line fault makes the next
// byte be dropped. (The bytes held, their count in the wait, the marks and the drop are single bytes of the state for C, in fixed memory.)
#[derive(Clone, Copy)]
pub struct State {
    pub drop: bool,
    pub shared: Shared,
    pub held: [u8; HELD],
    pub page: Page,
    pub wait: Wait,
}

// Which of the three a line fault was.
#[derive(Clone, Copy)]
pub enum Fault {
    Frame,
    Overrun,
    Parity,
}

// 01's term: an event is a received byte, or a line fault.
#[derive(Clone, Copy)]
pub enum Event {
    Byte(u8),
    Fault(Fault),
}

// The device code of a line fault.
impl From<Fault> for u8 {
    ghost from_gives = { λ f code. code ≡ fault_code f };

    fn from(f: Fault) -> u8 {
        match f {
            Fault::Frame => codes::FRAME,
            Fault::Overrun => codes::OVERRUN,
            Fault::Parity => codes::PARITY,
        }
    }
}

// A byte that is no line fault's code.
#[derive(Clone, Copy)]
pub struct NoFault;

impl TryFrom<u8> for Fault {
    type Error = NoFault;

    ghost try_from_gives = { λ code r. r ≡ fault_of code };

    fn try_from(code: u8) -> Result<Fault, NoFault> {
        match code {
            codes::FRAME => Ok(Fault::Frame),
            codes::OVERRUN => Ok(Fault::Overrun),
            codes::PARITY => Ok(Fault::Parity),
            _ => Err(NoFault),
        }
    }
}

// Whether nothing is waited for.
pub fn is_idle(w: Wait) -> bool
    ensures { result ≡ is_idle w }
{
    matches!(w, Wait::Nothing)
}

fn operand_fits(o: Operand, flags: u8) -> bool
    ensures { result ≡ operand_fits o flags }
{
    match o {
        Operand::ToPort(_) | Operand::ToCycles => true,
        Operand::ToI2c => i2c_selected(flags),
        Operand::ToConfig | Operand::ToSize => spi_selected(flags),
        Operand::ToOneWire | Operand::ToOneWireBit | Operand::ToOneWireStrong => {
            one_wire_selected(flags)
        }
    }
}

fn wait_fits(w: Wait, flags: u8, configured: bool, size: u8) -> bool
    ensures { result ≡ wait_fits w flags configured (bits_of size) }
{
    match w {
        Wait::Nothing | Wait::Extended => true,
        Wait::One(o) => operand_fits(o, flags),
        Wait::Packet { left, .. } => {
            spi_selected(flags) & configured & (1 <= left) & (left <= packet_bytes(size))
        }
        Wait::Timings { left } => one_wire_selected(flags)
            & (1 <= left)
            & (left as usize <= TIMINGS),
    }
}

fn page_fits(p: Page) -> bool
    ensures { result ≡ page_fits p }
{
    (selected_count(p.flags) <= 1)
        & (p.flags < 32)
        & (p.size < packet::WIDTH)
        & (p.config <= 7)
        & (p.ddrc < 64)
        & (p.portc < 64)
        & (p.ddrd % 4 == 0)
        & (p.portd % 4 == 0)
}

fn drop_fits(pending: bool, w: Wait) -> bool
    ensures { result ≡ drop_fits pending w }
{
    !pending | is_idle(w)
}

// Whether a state breaks no range; if it breaks one, a call is refused with 1.
pub fn in_range(s: State) -> bool
    ensures { result ≡ state_fits s }
{
    let p = s.page;
    let w = s.wait;
    page_fits(p) & wait_fits(w, p.flags, p.configured, p.size) & drop_fits(s.drop, w)
}
