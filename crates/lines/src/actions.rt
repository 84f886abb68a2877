// Single actions as the definitions name them; rows of them make the waveforms.
ghost use Rattle.std.specs.Prelude.{◌≡◌};
ghost use Rattle.wire.specs.Action.{action, set_direction, set_latch};
ghost use Rattle.lines.specs.Lines.{verb_for, released, low, high, sampled, waits, low_or_released, driven};

use wire::Action;

// A line released.
pub fn released(line: u8) -> Action
    ensures { result ≡ released line }
{
    Action::new(wire::VERB_RELEASE, line, 0)
}

// A line driven low.
pub fn low(line: u8) -> Action
    ensures { result ≡ low line }
{
    Action::new(wire::VERB_DRIVE_LOW, line, 0)
}

// A line driven high.
pub fn high(line: u8) -> Action
    ensures { result ≡ high line }
{
    Action::new(wire::VERB_DRIVE_HIGH, line, 0)
}

// A line sampled.
pub fn sampled(line: u8) -> Action
    ensures { result ≡ sampled line }
{
    Action::new(wire::VERB_SAMPLE_LINE, line, 0)
}

// A wait of n µs.
pub fn waits(n: u16) -> Action
    ensures { result ≡ waits n }
{
    Action::new(wire::VERB_WAIT_MICROSECONDS, wire::NO_LINE, n)
}

// A bit on an open line: low for 0, released for 1.
pub fn low_or_released(line: u8, bit: u8) -> Action
    ensures { result ≡ low_or_released line bit }
{
    Action::new(verb_for(wire::VERB_RELEASE, bit), line, 0)
}

// A bit on a driven line: low for 0, high for 1.
pub fn driven(line: u8, bit: u8) -> Action
    ensures { result ≡ driven line bit }
{
    Action::new(verb_for(wire::VERB_DRIVE_HIGH, bit), line, 0)
}

// The direction of a port.
pub(crate) fn direction(port: u8, value: u8) -> Action
    ensures { result ≡ action set_direction port value }
{
    Action::new(wire::VERB_DIRECTION, port, value as u16)
}

// The latch of a port.
pub(crate) fn latch(port: u8, value: u8) -> Action
    ensures { result ≡ action set_latch port value }
{
    Action::new(wire::VERB_LATCH, port, value as u16)
}

// The verb for a bit, where the one for 1 is release on an open line and high on a driven one.
pub fn verb_for(one: u8, bit: u8) -> u8
    ensures { result ≡ verb_for one bit }
{
    if bit == 0 { wire::VERB_DRIVE_LOW } else { one }
}
