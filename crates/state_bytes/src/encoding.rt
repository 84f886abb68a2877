// A state written as bytes.
ghost use Rattle.std.specs.Prelude.{◌≡◌, cond, ◌≤◌, length};
ghost use Rattle.state_bytes.specs.StateBytes.{at_eprom, at_wait, state_size, port_code, operand_code, wait_code, wait_left};
ghost use Rattle.state_bytes.specs.Parts.{PagePut, SharedPut, WaitPut, Stored};

use registers::{Operand, Page, PortRegister, Shared, State, Wait};

// The numbers are those of include/bridge.h, so they stand here and not with the types.
fn port_code(r: PortRegister) -> u8
    ensures { result ≡ port_code r }
{
    match r {
        PortRegister::Ddrb => 1,
        PortRegister::Portb => 2,
        PortRegister::Ddrc => 3,
        PortRegister::Portc => 4,
        PortRegister::Ddrd => 5,
        PortRegister::Portd => 6,
    }
}

fn operand_code(o: Operand) -> u8
    ensures { result ≡ operand_code o }
{
    match o {
        Operand::ToPort(r) => port_code(r),
        Operand::ToCycles => 7,
        Operand::ToI2c => 8,
        Operand::ToConfig => 9,
        Operand::ToSize => 10,
        Operand::ToOneWire => 11,
        Operand::ToOneWireBit => 12,
        Operand::ToOneWireStrong => 13,
    }
}

// What is waited for, as a number.
fn wait_code(w: Wait) -> u8
    ensures { result ≡ wait_code w }
{
    match w {
        Wait::Nothing => 0,
        Wait::One(o) => operand_code(o),
        Wait::Extended => 14,
        Wait::Packet { exchange, .. } => {
            if exchange {
                return 16;
            }
            15
        }
        Wait::Timings { .. } => 17,
    }
}

// How many more bytes are waited for, with packet and timing waits.
fn wait_left(w: Wait) -> u8
    ensures { result ≡ wait_left w }
{
    match w {
        Wait::Packet { left, .. } | Wait::Timings { left } => left,
        Wait::Nothing | Wait::One(_) | Wait::Extended => 0,
    }
}

// A mark as a byte.
pub fn mark(set: bool) -> u8
    ensures { result ≡ cond set 1 0 }
{
    u8::from(set)
}

// The registers, at the front of a buffer in which the caller shows room for them.
fn put_page(out: &mut [u8], p: Page) -> usize
    requires { at_eprom ≤ length out.old }
    ensures { PagePut p out.old out.new result }
{
    let row = [
        p.flags,
        p.error,
        p.ddrb,
        p.portb,
        p.ddrc,
        p.portc,
        p.ddrd,
        p.portd,
        p.config,
        mark(p.configured),
        p.size,
    ];
    let a = wire::put_bytes(out, 0, &row);
    let b = wire::put_bytes(out, a, &p.packet);
    wire::put_bytes(out, b, &p.timings)
}

// What is no register, at its place.
fn put_shared(out: &mut [u8], at: usize, h: Shared) -> usize
    requires { (at ≡ at_eprom) × (at_wait ≤ length out.old) }
    ensures { SharedPut h at out.old out.new result }
{
    let a = wire::put_bytes(out, at, &h.eprom);
    let b = wire::put_bytes(out, a, &[h.cycles, h.version]);
    wire::put_bytes(out, b, &h.serial)
}

// The wait, what is held for it, and the drop, at their place.
fn put_wait(out: &mut [u8], at: usize, w: Wait, held: [u8; registers::HELD], pending: bool) -> usize
    requires { (at ≡ at_wait) × (state_size ≤ length out.old) }
    ensures { WaitPut w held pending at out.old out.new result }
{
    let a = wire::put_bytes(out, at, &[wait_code(w), wait_left(w)]);
    let b = wire::put_bytes(out, a, &held);
    wire::put_bytes(out, b, &[mark(pending)])
}

// The state goes to lent bytes. The caller shows that they are as many as a state's.
pub fn store(bytes: &mut [u8], s: State)
    requires { length bytes.old ≡ state_size }
    ensures { Stored s bytes.new }
{
    let a = put_page(bytes, s.page);
    let b = put_shared(bytes, a, s.shared);
    put_wait(bytes, b, s.wait, s.held, s.drop);
}
