// The waveforms by name: what an event does on the lines, as its bus measures and writes it.
#![tactic(auto)]

ghost use Rattle.std.specs.Prelude.{◌≡◌, ◌≤◌, ◌<◌, length};
ghost use Rattle.wire.specs.Action.{bytes_of};
ghost use Rattle.wire.specs.Buffer.{Written};
ghost use Rattle.packet.specs.Packet.{width};
ghost use Rattle.lines.specs.Waves.{measure_of};
ghost use Rattle.signals.specs.Waveforms.{wave_of};
ghost use Rattle.signals.specs.Sensed.{sense_of, on_lines};

use lines::{Measured, ports, pulses, singles};
use packet::Register;
use registers::Page;

const RELEASE: u8 = wire::VERB_RELEASE;

const HIGH: u8 = wire::VERB_DRIVE_HIGH;

const SAMPLE_LINE: u8 = wire::VERB_SAMPLE_LINE;

const SAMPLE_PORT: u8 = wire::VERB_SAMPLE_PORT;

// A waveform by name; a port's value is its whole new register.
#[derive(Clone, Copy)]
pub enum Waveform {
    Still,
    Reinit,
    ReinitHigh(u8),
    Line {
        verb: u8,
        line: u8,
    },
    Port {
        verb: u8,
        line: u8,
        value: u8,
    },
    PortPulse {
        line: u8,
        first: u8,
        unit: u8,
        wait: u8,
        last: u8,
    },
    Pb7Pulse {
        unit: u8,
        wait: u16,
    },
    SampleLine(u8),
    SamplePort(u8),
    Start,
    Stop,
    WriteI2c(u8),
    ReadI2c(u8),
    Exchange,
    ResetOneWire,
    WriteOneWire(u8),
    WriteOneWireBit(u8),
    WriteOneWireStrong(u8),
    ReadOneWire,
    ReadOneWireBit,
}

// What the samples give, and how many bytes the actions take.
#[derive(Clone, Copy)]
pub struct Sensed {
    pub used: usize,
    pub bytes: usize,
    pub byte: u8,
    pub packet: packet::Register,
}

// What the waveform's bus measures of it.
fn measure(page: Page, wave: Waveform, samples: &[u8]) -> Measured
    requires { page.size < width }
    ensures { result ≡ measure_of (on_lines (wave_of page wave samples.now 0)) }
{
    let ts = page.timings;
    match wave {
        Waveform::Still => lines::quiet(0),
        Waveform::Reinit => ports::measure_reinit(),
        Waveform::ReinitHigh(line) => ports::measure_reinit_high(line),
        Waveform::Line { verb, line } => singles::measure_single(verb, line, 0),
        Waveform::Port { verb, line, value } => singles::measure_single(verb, line, value),
        Waveform::PortPulse {
            line,
            first,
            unit,
            wait,
            last,
        } => pulses::measure_port_pulse(line, first, unit, wait, last),
        Waveform::Pb7Pulse { unit, wait } => pulses::measure_pb7_pulse(unit, wait),
        Waveform::SampleLine(line) => singles::measure_sample(SAMPLE_LINE, line, samples),
        Waveform::SamplePort(line) => singles::measure_sample(SAMPLE_PORT, line, samples),
        Waveform::Start => i2c_bus::measure_start(),
        Waveform::Stop => i2c_bus::measure_stop(),
        Waveform::WriteI2c(x) => i2c_bus::measure_write(x, samples),
        Waveform::ReadI2c(answer) => i2c_bus::measure_read(answer, samples),
        Waveform::Exchange => spi_bus::measure_exchange(page),
        Waveform::ResetOneWire => one_wire_bus::measure_reset(ts, samples),
        Waveform::WriteOneWire(x) => one_wire_bus::measure_write(ts, 8, RELEASE, x),
        Waveform::WriteOneWireBit(x) => one_wire_bus::measure_write(ts, 1, RELEASE, x),
        Waveform::WriteOneWireStrong(x) => one_wire_bus::measure_write(ts, 8, HIGH, x),
        Waveform::ReadOneWire => one_wire_bus::measure_read(ts, samples),
        Waveform::ReadOneWireBit => one_wire_bus::measure_read_bit(ts, samples),
    }
}

// The packet register after a waveform; an exchange alone gives another.
fn packet_after(page: Page, wave: Waveform, samples: &[u8]) -> Register
    requires { page.size < width }
    ensures { result ≡ (wave_of page wave samples.now 0).packet }
{
    match wave {
        Waveform::Exchange => spi_bus::packet_after(page, samples),
        _ => page.packet,
    }
}

// What a waveform's samples give and how many bytes its actions take, read before anything is written.
// The caller shows that the size register is in range and that the mark is not past the samples' end.
pub fn sense(page: Page, wave: Waveform, samples: &[u8], from: usize) -> Sensed
    requires { (page.size < width) × (from ≤ length samples.now) }
    ensures { result ≡ sense_of (wave_of page wave samples.now from) }
{
    let rest = &samples[from..];
    let m = measure(page, wave, rest);
    let packet = packet_after(page, wave, rest);
    Sensed {
        used: m.used,
        bytes: m.bytes,
        byte: m.byte,
        packet,
    }
}

// Writes a waveform's actions at the start of the unused part of a lent buffer, and answers how many bytes they are.
// The caller shows that the size register is in range and that they fit.
pub fn write(out: &mut [u8], page: Page, wave: Waveform, samples: &[u8], from: usize) -> usize
    requires { (page.size < width) × (length (bytes_of (wave_of page wave samples.now from).actions) ≤ length out.old) }
    ensures { Written out.old 0 (bytes_of (wave_of page wave samples.now from).actions) out.new result }
{
    let ts = page.timings;
    match wave {
        Waveform::Still => 0,
        Waveform::Reinit => ports::put_reinit(out),
        Waveform::ReinitHigh(line) => ports::put_reinit_high(out, line),
        Waveform::Line { verb, line } => singles::put_single(out, verb, line, 0),
        Waveform::Port { verb, line, value } => singles::put_single(out, verb, line, value),
        Waveform::PortPulse {
            line,
            first,
            unit,
            wait,
            last,
        } => pulses::put_port_pulse(out, line, first, unit, wait, last),
        Waveform::Pb7Pulse { unit, wait } => pulses::put_pb7_pulse(out, unit, wait),
        Waveform::SampleLine(line) => singles::put_single(out, SAMPLE_LINE, line, 0),
        Waveform::SamplePort(line) => singles::put_single(out, SAMPLE_PORT, line, 0),
        Waveform::Start => i2c_bus::put_start(out),
        Waveform::Stop => i2c_bus::put_stop(out),
        Waveform::WriteI2c(x) => i2c_bus::put_write(out, x),
        Waveform::ReadI2c(answer) => i2c_bus::put_read(out, answer),
        Waveform::Exchange => spi_bus::put_exchange(out, page),
        Waveform::ResetOneWire => one_wire_bus::put_reset(out, ts),
        Waveform::WriteOneWire(x) => one_wire_bus::put_write(out, ts, 8, RELEASE, x),
        Waveform::WriteOneWireBit(x) => one_wire_bus::put_write(out, ts, 1, RELEASE, x),
        Waveform::WriteOneWireStrong(x) => one_wire_bus::put_write(out, ts, 8, HIGH, x),
        Waveform::ReadOneWire => one_wire_bus::put_read(out, ts),
        Waveform::ReadOneWireBit => one_wire_bus::put_read_bit(out, ts),
    }
}
