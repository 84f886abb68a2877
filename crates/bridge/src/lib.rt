// The bridge: one call for an event, and the judge's call.
#![tactic(auto)]

ghost use Rattle.std.specs.Prelude.{◌≡◌, ◌/◌, true, false, length, OnOk, IfErr, MatchResult};
ghost use Rattle.wire.specs.Buffer.{fits_in};
ghost use Rattle.effects.specs.Returning.{codes_in};
ghost use Rattle.bridge.specs.Answering.{answered, refusal, acceptance, given, lent, refused, answer_of};
ghost use Rattle.bridge.specs.Measuring.{Admitted};

mod judging;
pub mod measuring;

use effects::Returned;
use measuring::Measured;
use refusals::Refusal;
use registers::{Event, State};

// The bridge that a call takes and hands back: the state of the crates below, by value.
#[derive(Clone, Copy)]
pub struct Bridge {
    pub state: State,
}

// What a call answers: the new bridge, whether it was taken or why not, the codes that the event returned, and how many samples were
// used and reply bytes and actions written. (The Result stands beside them, since a refused call answers them too.)
#[derive(Clone, Copy)]
pub struct Stepped {
    pub bridge: Bridge,
    pub outcome: Result<(), Refusal>,
    pub returned: Returned,
    pub samples: usize,
    pub replies: usize,
    pub actions: usize,
}

// A refused call's answer: the bridge that it was given, no codes and no counts.
fn refused(b: Bridge, why: Refusal) -> Stepped
    ensures { answered result ≡ refusal b why }
{
    Stepped {
        bridge: b,
        outcome: Err(why),
        returned: Returned::Nothing,
        samples: 0,
        replies: 0,
        actions: 0,
    }
}

// A taken call's answer, with the actions counted from their bytes.
fn accepted(s: State, returned: Returned, samples: usize, replies: usize, bytes: usize) -> Stepped
    ensures { answered result ≡ acceptance s (codes_in returned) samples replies (bytes / 4) }
{
    Stepped {
        bridge: Bridge { state: s },
        outcome: Ok(()),
        returned,
        samples,
        replies,
        actions: bytes / wire::ACTION_BYTES,
    }
}

// Whether so many bytes fit after a lent buffer's mark, or else why the call is refused.
fn fit(bytes: &[u8], mark: usize, need: usize, why: Refusal) -> Result<(), Refusal>
    ensures ok { OnOk result (fits_in (length bytes.now) mark need ≡ true) }
    ensures err { IfErr result (λ e. (fits_in (length bytes.now) mark need ≡ false) × (e ≡ why)) }
{
    if wire::fits(bytes.len(), mark, need) {
        Ok(())
    } else {
        Err(why)
    }
}

impl Bridge {
    // One event. Everything is measured before anything is written, so a refused call leaves both buffers as they were.
    // (The C interface's bridge_step hands over each buffer and its mark by itself; `lent` in the contract puts them together.)
    pub fn step(
        self,
        event: Event,
        samples: &[u8],
        sampled: usize,
        actions: &mut [u8],
        acted: usize,
        replies: &mut [u8],
        replied: usize,
    ) -> Stepped
        ensures { given (answered result) actions.new replies.new ≡ answer_of self event (lent samples.now sampled actions.old acted replies.old replied) }
    {
        let r = match self.admit(event, samples, sampled, actions, acted, replies, replied) {
            Ok(r) => r,
            Err(why) => return refused(self, why),
        };
        signals::write(&mut actions[acted..], r.page, r.wave, samples, sampled);
        effects::sending::put_reply(&mut replies[replied..], r.state, r.reply);
        accepted(r.state, r.returned, r.used, r.size, r.bytes)
    }

    // The event measured, or the lowest refusal that applies.
    fn admit(
        self,
        event: Event,
        samples: &[u8],
        sampled: usize,
        actions: &[u8],
        acted: usize,
        replies: &[u8],
        replied: usize,
    ) -> Result<Measured, Refusal>
        ensures { let l = lent samples.now sampled actions.now acted replies.now replied in MatchResult result (λ r. Admitted self event l r) (λ why. refused self l why ≡ answer_of self event l) }
    {
        let s = self.state;
        if !registers::in_range(s) {
            return Err(Refusal::Ranges);
        }
        fit(samples, sampled, 0, Refusal::Samples)?; // the mark is not past the end
        let r = measuring::measure(s, event, samples, sampled);
        fit(samples, sampled, r.used, Refusal::Samples)?;
        fit(actions, acted, r.bytes, Refusal::Actions)?;
        fit(replies, replied, r.size, Refusal::Replies)?;
        Ok(r)
    }
}
