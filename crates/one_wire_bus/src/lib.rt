// The waveforms of 1-Wire: what each measures with the samples that it is given, and its writer at the front of a lent buffer.
#![tactic(auto)]

ghost use Rattle.std.specs.Prelude.{◌≡◌, ◌+◌, ◌-◌, ◌≤◌, ◌<◌, [], ◌∷◌, length, take};
ghost use Rattle.wire.specs.Action.{action, bytes_of, release, dq};
ghost use Rattle.wire.specs.Buffer.{Written};
ghost use Rattle.lines.specs.Lines.{for_each, waits};
ghost use Rattle.lines.specs.Waves.{measure_of};
ghost use Rattle.one_wire_bus.specs.OneWire.{group_waits, reset_waits, write_waits, read_waits, slot, sample_slot, write_slot, low_first, read_slots, one_wire_reset, one_wire_write, one_wire_read, one_wire_read_bit};

use lines::actions::{low, low_or_released, released, sampled, waits};
use lines::{Measured, put_repeated};
use registers::TIMINGS;
use wire::Action;

const RELEASE: u8 = wire::VERB_RELEASE;

const DQ: u8 = wire::LINE_DQ;

// The three waits of a group, in µs; the definitions are about it too.
#[derive(Clone, Copy)]
struct Waits {
    first: u16,
    second: u16,
    third: u16,
}

// The waits of a group: the differences of its three bytes and 255, in a unit of so many µs.
fn group_waits(unit: u16, a: u8, b: u8, c: u8) -> Waits
    requires { unit ≤ 8 }
    ensures { result ≡ group_waits unit a b c }
{
    Waits {
        first: unit * b.saturating_sub(a) as u16,
        second: unit * c.saturating_sub(b) as u16,
        third: unit * (255 - c) as u16,
    }
}

const SLOT_ACTIONS: u8 = 6;

// A slot by its three waits and its third and fifth action.
fn slot(w: Waits, third: Action, fifth: Action) -> [Action; 6]
    ensures { result ≡ slot w third fifth }
{
    [
        low(DQ),
        waits(w.first),
        third,
        waits(w.second),
        fifth,
        waits(w.third),
    ]
}

// A slot that writes a bit; its fifth action's verb is given.
fn write_slot(w: Waits, fifth: u8, bit: u8) -> [Action; 6]
    ensures { result ≡ write_slot w fifth bit }
{
    slot(w, low_or_released(DQ, bit), Action::new(fifth, DQ, 0))
}

// A slot that samples.
fn sample_slot(w: Waits) -> [Action; 6]
    ensures { result ≡ sample_slot w }
{
    slot(w, released(DQ), sampled(DQ))
}

// The waits of the reset group.
fn reset_waits(ts: [u8; TIMINGS]) -> Waits
    ensures { result ≡ reset_waits ts }
{
    group_waits(8, ts[0], ts[1], ts[2])
}

// The waits of the write group.
fn write_waits(ts: [u8; TIMINGS]) -> Waits
    ensures { result ≡ write_waits ts }
{
    group_waits(1, ts[3], ts[4], ts[5])
}

// The waits of the read group.
fn read_waits(ts: [u8; TIMINGS]) -> Waits
    ensures { result ≡ read_waits ts }
{
    group_waits(1, ts[6], ts[7], ts[8])
}

// 60: a reset, a slot of the reset group that samples.
pub fn measure_reset(ts: [u8; TIMINGS], samples: &[u8]) -> Measured
    ensures { result ≡ measure_of (one_wire_reset ts samples.now 0) }
{
    lines::once(SLOT_ACTIONS, samples)
}

// Writes a reset's actions, for which the caller shows the room.
pub fn put_reset(out: &mut [u8], ts: [u8; TIMINGS]) -> usize
    requires { length (bytes_of (sample_slot (reset_waits ts))) ≤ length out.old }
    ensures { Written out.old 0 (bytes_of (sample_slot (reset_waits ts))) out.new result }
{
    wire::put_actions(out, &sample_slot(reset_waits(ts)))
}

// The low n bits of a byte, low bit first, each in a slot that ends released.
fn put_bits(out: &mut [u8], w: Waits, n: u8, byte: u8) -> usize
    requires { (n < 8) × (0 + length (bytes_of (for_each (write_slot w release) (take n (low_first byte)))) ≤ length out.old) }
    ensures { Written out.old 0 (bytes_of (for_each (write_slot w release) (take n (low_first byte)))) out.new result }
{
    let mut at = 0;
    for i in 0..n {
        at += wire::put_actions(&mut out[at..], &write_slot(w, RELEASE, (byte >> i) % 2));
    }
    at
}

// The low n bits of a byte, low bit first; the last slot's fifth action has the verb given. The caller shows that n is 1 to 8.
pub fn measure_write(ts: [u8; TIMINGS], n: u8, fifth: u8, byte: u8) -> Measured
    requires { (1 ≤ n) × (n ≤ 8) }
    ensures { result ≡ measure_of (one_wire_write ts n fifth byte) }
{
    lines::quiet(n * SLOT_ACTIONS)
}

// Writes the actions of n bits written, for which the caller shows the room and that n is 1 to 8.
pub fn put_write(out: &mut [u8], ts: [u8; TIMINGS], n: u8, fifth: u8, byte: u8) -> usize
    requires { ((1 ≤ n) × (n ≤ 8)) × (length (bytes_of (one_wire_write ts n fifth byte).actions) ≤ length out.old) }
    ensures { Written out.old 0 (bytes_of (one_wire_write ts n fifth byte).actions) out.new result }
{
    let w = write_waits(ts);
    let last = n - 1;
    let at = put_bits(out, w, last, byte);
    at + wire::put_actions(&mut out[at..], &write_slot(w, fifth, (byte >> last) % 2))
}

const READ_ACTIONS: u8 = 8 * SLOT_ACTIONS;

// 62: a byte read, low bit first.
pub fn measure_read(ts: [u8; TIMINGS], samples: &[u8]) -> Measured
    ensures { result ≡ measure_of (one_wire_read ts samples.now 0) }
{
    lines::eight(READ_ACTIONS, samples, false)
}

// Writes the actions of a byte read, for which the caller shows the room.
pub fn put_read(out: &mut [u8], ts: [u8; TIMINGS]) -> usize
    requires { length (bytes_of (read_slots (read_waits ts))) ≤ length out.old }
    ensures { Written out.old 0 (bytes_of (read_slots (read_waits ts))) out.new result }
{
    put_repeated(out, 8, &sample_slot(read_waits(ts)))
}

// 64: a bit read.
pub fn measure_read_bit(ts: [u8; TIMINGS], samples: &[u8]) -> Measured
    ensures { result ≡ measure_of (one_wire_read_bit ts samples.now 0) }
{
    lines::once(SLOT_ACTIONS, samples)
}

// Writes the actions of a bit read, for which the caller shows the room.
pub fn put_read_bit(out: &mut [u8], ts: [u8; TIMINGS]) -> usize
    requires { length (bytes_of (sample_slot (read_waits ts))) ≤ length out.old }
    ensures { Written out.old 0 (bytes_of (sample_slot (read_waits ts))) out.new result }
{
    wire::put_actions(out, &sample_slot(read_waits(ts)))
}
