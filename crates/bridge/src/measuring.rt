// An event measured: everything about it but the writing.
ghost use Rattle.std.specs.Prelude.{◌≤◌, length};
ghost use Rattle.registers.specs.Ranges.{InRange};
ghost use Rattle.bridge.specs.Measuring.{MeasuredAs};

use effects::{Reply, Returned};
use registers::parts::with_packet;
use registers::{Event, Page, State};
use signals::Waveform;

// The page and the waveform to write, the samples used, the bytes of the actions, the new state, the codes returned, and the reply
// with its size.
#[derive(Clone, Copy)]
pub struct Measured {
    pub page: Page,
    pub wave: Waveform,
    pub used: usize,
    pub bytes: usize,
    pub state: State,
    pub returned: Returned,
    pub reply: Reply,
    pub size: usize,
}

// Measures an event, for a caller that writes it where it wants. The caller shows that the state breaks no range and that the mark
// is not past the samples' end.
pub fn measure(s: State, event: Event, samples: &[u8], sampled: usize) -> Measured
    requires { InRange s × (sampled ≤ length samples.now) }
    ensures { MeasuredAs s event samples.now sampled result }
{
    let d = decisions::decision_of(s, event);
    let change = d.change;
    let pending = decisions::drop_after(s, event);
    let mut changed = changes::apply(s, change);
    // marked here, so that no change carries it
    changed.drop = pending;
    let page = changed.page;
    let wave = d.wave;
    let answer = d.answer;
    let x = signals::sense(page, wave, samples, sampled);
    let packet = x.packet;
    let q = with_packet(changed, packet);
    let t = effects::replies::respond(q, answer, x.byte);
    let returned = effects::returning::returned(answer, x.byte);
    let state = t.state;
    let reply = t.reply;
    let size = effects::sending::reply_size(state, reply);
    Measured {
        page,
        wave,
        used: x.used,
        bytes: x.bytes,
        state,
        returned,
        reply,
        size,
    }
}
