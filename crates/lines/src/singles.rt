// One action, and one sample: what each measures, and its writer.
ghost use Rattle.std.specs.Prelude.{◌≡◌, ◌≤◌, length};
ghost use Rattle.wire.specs.Action.{bytes_of};
ghost use Rattle.wire.specs.Buffer.{Written};
ghost use Rattle.lines.specs.Waves.{measure_of, single, sampling};

use crate::Measured;

const ACTIONS: u8 = 1;

// One action on a line or a port.
pub fn measure_single(verb: u8, line: u8, value: u8) -> Measured
    ensures { result ≡ measure_of (single verb line value) }
{
    crate::quiet(ACTIONS)
}

// Writes the action, for which the caller shows the room.
pub fn put_single(out: &mut [u8], verb: u8, line: u8, value: u8) -> usize
    requires { length (bytes_of (single verb line value).actions) ≤ length out.old }
    ensures { Written out.old 0 (bytes_of (single verb line value).actions) out.new result }
{
    wire::put_action(out, verb, line, value as u16)
}

// One sample of a line or a port; a single action writes it.
pub fn measure_sample(verb: u8, line: u8, samples: &[u8]) -> Measured
    ensures { result ≡ measure_of (sampling verb line samples.now 0) }
{
    crate::once(ACTIONS, samples)
}
