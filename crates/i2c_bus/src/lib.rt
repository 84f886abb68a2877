// The waveforms of I2C: what each measures with the samples that it is given, and its writer at the front of a lent buffer.
#![tactic(auto)]

ghost use Rattle.std.specs.Prelude.{◌≡◌, ◌+◌, ◌≤◌, length};
ghost use Rattle.wire.specs.Action.{bytes_of};
ghost use Rattle.wire.specs.Buffer.{Written};
ghost use Rattle.packet.specs.Register.{byte_bits, zeros};
ghost use Rattle.lines.specs.Lines.{for_each};
ghost use Rattle.lines.specs.Waves.{measure_of};
ghost use Rattle.i2c_bus.specs.I2c.{i2c_start, i2c_stop, i2c_bit, i2c_sampled, write_actions, i2c_write, read_actions, i2c_read};

use lines::actions::{low, low_or_released, released, sampled};
use lines::{Measured, put_repeated};
use wire::Action;

const SCL: u8 = wire::LINE_SCL;

const SDA: u8 = wire::LINE_SDA;

const SAMPLED_ACTIONS: u8 = 4;

// SDA released and sampled within a clock pulse.
fn sampled_row() -> [Action; 4]
    ensures { result ≡ i2c_sampled }
{
    [released(SDA), released(SCL), sampled(SDA), low(SCL)]
}

const BIT_ACTIONS: u8 = 3;

// A bit on SDA and a clock pulse.
fn bit_row(bit: u8) -> [Action; 3]
    ensures { result ≡ i2c_bit bit }
{
    [low_or_released(SDA, bit), released(SCL), low(SCL)]
}

const START_ACTIONS: u8 = 4;

// 20: a start.
pub fn measure_start() -> Measured
    ensures { result ≡ measure_of i2c_start }
{
    lines::quiet(START_ACTIONS)
}

// Writes a start's actions, for which the caller shows the room.
pub fn put_start(out: &mut [u8]) -> usize
    requires { length (bytes_of i2c_start.actions) ≤ length out.old }
    ensures { Written out.old 0 (bytes_of i2c_start.actions) out.new result }
{
    wire::put_actions(out, &[released(SDA), released(SCL), low(SDA), low(SCL)])
}

const STOP_ACTIONS: u8 = 3;

// 21: a stop.
pub fn measure_stop() -> Measured
    ensures { result ≡ measure_of i2c_stop }
{
    lines::quiet(STOP_ACTIONS)
}

// Writes a stop's actions, for which the caller shows the room.
pub fn put_stop(out: &mut [u8]) -> usize
    requires { length (bytes_of i2c_stop.actions) ≤ length out.old }
    ensures { Written out.old 0 (bytes_of i2c_stop.actions) out.new result }
{
    wire::put_actions(out, &[low(SDA), released(SCL), released(SDA)])
}

// A byte's bits, high bit first.
fn put_bits(out: &mut [u8], byte: u8) -> usize
    requires { 0 + length (bytes_of (for_each i2c_bit (byte_bits byte))) ≤ length out.old }
    ensures { Written out.old 0 (bytes_of (for_each i2c_bit (byte_bits byte))) out.new result }
{
    let mut at = 0;
    for i in 0..8u8 {
        at += wire::put_actions(&mut out[at..], &bit_row((byte >> (7 - i)) % 2));
    }
    at
}

const WRITE_ACTIONS: u8 = 8 * BIT_ACTIONS + SAMPLED_ACTIONS;

// 22's operand: a byte written, high bit first, and its acknowledge sampled.
pub fn measure_write(byte: u8, samples: &[u8]) -> Measured
    ensures { result ≡ measure_of (i2c_write byte samples.now 0) }
{
    lines::once(WRITE_ACTIONS, samples)
}

// Writes the actions of a byte written, for which the caller shows the room.
pub fn put_write(out: &mut [u8], byte: u8) -> usize
    requires { length (bytes_of (write_actions byte)) ≤ length out.old }
    ensures { Written out.old 0 (bytes_of (write_actions byte)) out.new result }
{
    let at = put_bits(out, byte);
    at + wire::put_actions(&mut out[at..], &sampled_row())
}

const READ_ACTIONS: u8 = 8 * SAMPLED_ACTIONS + BIT_ACTIONS;

// 23, 24: a byte read, high bit first, and the answering bit.
pub fn measure_read(answer: u8, samples: &[u8]) -> Measured
    ensures { result ≡ measure_of (i2c_read answer samples.now 0) }
{
    lines::eight(READ_ACTIONS, samples, true)
}

// Writes the actions of a byte read, for which the caller shows the room.
pub fn put_read(out: &mut [u8], answer: u8) -> usize
    requires { length (bytes_of (read_actions answer)) ≤ length out.old }
    ensures { Written out.old 0 (bytes_of (read_actions answer)) out.new result }
{
    let at = put_repeated(out, 8, &sampled_row());
    at + wire::put_actions(&mut out[at..], &bit_row(answer))
}
