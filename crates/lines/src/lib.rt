// What the waveforms of all buses share: the measure of one before it is written, its actions, and what samples give; and the
// waveforms of single lines and ports.
#![tactic(auto)]

ghost use Rattle.std.specs.Prelude.{◌≡◌, ◌+◌, ◌≤◌, length};
ghost use Rattle.wire.specs.Action.{bytes_of};
ghost use Rattle.wire.specs.Buffer.{Written};
ghost use Rattle.wire.specs.Sample.{byte_at};
ghost use Rattle.packet.specs.Register.{zeros};
ghost use Rattle.lines.specs.Lines.{levels, byte_of, for_each};
ghost use Rattle.lines.specs.Waves.{measured};

pub mod actions;
pub mod ports;
pub mod pulses;
pub mod readings;
pub mod singles;

pub use actions::verb_for;
use wire::Action;

// What is known of a waveform before anything is written: the byte that its samples give, how many samples it uses, and how many
// bytes its actions take.
#[derive(Clone, Copy)]
pub struct Measured {
    pub byte: u8,
    pub used: usize,
    pub bytes: usize,
}

// The measure of so many actions that sample nothing. Each waveform's own measure stands beside its writer; an argument that its code
// leaves alone says, in its contract, which waveform it is.
pub fn quiet(actions: u8) -> Measured
    ensures { result ≡ measured 0 actions 0 }
{
    Measured {
        used: 0,
        bytes: wire::ACTION_BYTES * actions as usize,
        byte: 0,
    }
}

// The measure of so many actions that sample once: the byte is the sample as it stands.
pub fn once(actions: u8, samples: &[u8]) -> Measured
    ensures { result ≡ measured 1 actions (byte_at samples.now 0) }
{
    let byte = wire::byte_at(samples, 0);
    Measured {
        used: 1,
        bytes: wire::ACTION_BYTES * actions as usize,
        byte,
    }
}

// The measure of so many actions that sample eight times: the byte of the levels, the first of them highest or lowest.
pub fn eight(actions: u8, samples: &[u8], high: bool) -> Measured
    ensures { result ≡ measured 8 actions (byte_of high (levels samples.now 0 8)) }
{
    let byte = readings::byte_of(samples, high);
    Measured {
        used: 8,
        bytes: wire::ACTION_BYTES * actions as usize,
        byte,
    }
}

// Writes a row of actions so many times, at the start of the unused part of a lent buffer, and answers how many bytes they are. The
// caller shows that they fit there.
// (Rows that differ are a loop in each bus: a closure that gives an array of any length gets no proof.)
pub fn put_repeated<const N: usize>(out: &mut [u8], times: u8, row: &[Action; N]) -> usize
    requires { 0 + length (bytes_of (for_each (λ _. row.now) (zeros times))) ≤ length out.old }
    ensures { Written out.old 0 (bytes_of (for_each (λ _. row.now) (zeros times))) out.new result }
{
    let mut at = 0;
    for _ in 0..times {
        at += wire::put_actions(&mut out[at..], row);
    }
    at
}
