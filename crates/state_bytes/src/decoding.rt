// A state read from its bytes.
ghost use Rattle.std.specs.Prelude.{◌≡◌, ◌+◌, ◌≤◌, length};
ghost use Rattle.state_bytes.specs.StateBytes.{piece, wait_of, page_in, shared_in, state_in, is_state, decoded};

use registers::{Operand, Page, PortRegister, Shared, State, Wait};

// Where each part of a state stands.
const AT_CONFIGURED: usize = 9;

const AT_PACKET: usize = 11;

const AT_TIMINGS: usize = AT_PACKET + packet::BYTES;

const AT_EPROM: usize = AT_TIMINGS + registers::TIMINGS;

const AT_CYCLES: usize = AT_EPROM + registers::IMAGE;

const AT_VERSION: usize = AT_CYCLES + 1;

const AT_SERIAL: usize = AT_VERSION + 1;

const AT_WAIT: usize = AT_SERIAL + registers::SERIAL;

const AT_LEFT: usize = AT_WAIT + 1;

const AT_HELD: usize = AT_LEFT + 1;

const AT_DROP: usize = AT_HELD + registers::HELD;

// How many bytes a state is.
pub const SIZE: usize = AT_DROP + 1;

// What is waited for, by its number in include/bridge.h; nothing for a number that is none.
fn wait_of(code: u8, left: u8) -> Wait
    ensures { result ≡ wait_of code left }
{
    match code {
        0 => Wait::Nothing,
        1 => Wait::One(Operand::ToPort(PortRegister::Ddrb)),
        2 => Wait::One(Operand::ToPort(PortRegister::Portb)),
        3 => Wait::One(Operand::ToPort(PortRegister::Ddrc)),
        4 => Wait::One(Operand::ToPort(PortRegister::Portc)),
        5 => Wait::One(Operand::ToPort(PortRegister::Ddrd)),
        6 => Wait::One(Operand::ToPort(PortRegister::Portd)),
        7 => Wait::One(Operand::ToCycles),
        8 => Wait::One(Operand::ToI2c),
        9 => Wait::One(Operand::ToConfig),
        10 => Wait::One(Operand::ToSize),
        11 => Wait::One(Operand::ToOneWire),
        12 => Wait::One(Operand::ToOneWireBit),
        13 => Wait::One(Operand::ToOneWireStrong),
        14 => Wait::Extended,
        15 => Wait::Packet {
            left,
            exchange: false,
        },
        16 => Wait::Packet {
            left,
            exchange: true,
        },
        17 => Wait::Timings { left },
        _ => Wait::Nothing,
    }
}

// A part of the bytes as an array. The caller shows that it lies within them.
fn part<const N: usize>(bytes: &[u8], at: usize) -> [u8; N]
    requires { at + N ≤ length bytes.now }
    ensures { result ≡ piece bytes.now at N }
{
    let mut part = [0u8; N];
    part.copy_from_slice(&bytes[at..at + N]);
    part
}

// The registers.
fn page(bytes: &[u8; SIZE]) -> Page
    ensures { result ≡ page_in bytes.now }
{
    Page {
        flags: bytes[0],
        error: bytes[1],
        ddrb: bytes[2],
        portb: bytes[3],
        ddrc: bytes[4],
        portc: bytes[5],
        ddrd: bytes[6],
        portd: bytes[7],
        config: bytes[8],
        configured: bytes[AT_CONFIGURED] == 1,
        size: bytes[10],
        packet: part(bytes, AT_PACKET),
        timings: part(bytes, AT_TIMINGS),
    }
}

// What is no register.
fn shared(bytes: &[u8; SIZE]) -> Shared
    ensures { result ≡ shared_in bytes.now }
{
    Shared {
        eprom: part(bytes, AT_EPROM),
        cycles: bytes[AT_CYCLES],
        version: bytes[AT_VERSION],
        serial: part(bytes, AT_SERIAL),
    }
}

// The state that as many bytes as a state's are read as.
#[tactic(auto, unfolding(crate::specs::StateBytes::state_in))]
pub fn state_of(bytes: &[u8; SIZE]) -> State
    ensures { result ≡ state_in bytes.now }
{
    State {
        page: page(bytes),
        shared: shared(bytes),
        wait: wait_of(bytes[AT_WAIT], bytes[AT_LEFT]),
        held: part(bytes, AT_HELD),
        drop: bytes[AT_DROP] == 1,
    }
}

// Whether bytes are a state's.
#[tactic(auto, unfolding(crate::specs::StateBytes::is_state))]
pub fn is_state(bytes: &[u8]) -> bool
    ensures { result ≡ is_state bytes.now }
{
    if bytes.len() != SIZE {
        return false;
    }
    let configured = bytes[AT_CONFIGURED];
    let code = bytes[AT_WAIT];
    let left = bytes[AT_LEFT];
    let drop = bytes[AT_DROP];
    (configured <= 1) & (drop <= 1) & (code <= 17) & ((15 <= code) | (left == 0))
}

// The state of bytes, where they are a state's. (Inlined, since as a call it hands back a state or none through memory, and a
// refused call then took half as many instructions again.)
#[tactic(auto, using(crate::proofs::Back::state_facts))]
#[inline(always)]
pub fn decoded(bytes: &[u8]) -> Option<State>
    ensures { result ≡ decoded bytes.now }
{
    if !is_state(bytes) {
        return None;
    }
    Some(state_of(bytes.as_array().unwrap()))
}
