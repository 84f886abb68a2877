// What C gets: the number of an answer, a verdict in three numbers, and the new state.
ghost use Rattle.std.specs.Prelude.{◌≡◌, length};
ghost use Rattle.state_bytes.specs.StateBytes.{state_size};
ghost use Rattle.export.specs.Exported.{outcome_number, state_after, verdict_number, place_of, code_in};

use bridge::Stepped;
use grammar::Verdict;
use refusals::Refusal;
use state_bytes::encoding;

// The number of a call that was taken (include/bridge.h).
pub(crate) const TAKEN: u8 = 0;

// The number of a call that was taken, or of its refusal.
pub(crate) fn number(outcome: Result<(), Refusal>) -> u8
    ensures { result ≡ outcome_number outcome }
{
    match outcome {
        Ok(()) => TAKEN,
        Err(why) => u8::from(why),
    }
}

// The number of an answer; the new state of a call that was taken goes to `state`.
pub(crate) fn finish(state: &mut [u8], x: Stepped) -> u8
    requires { length state.old ≡ state_size }
    ensures { (result ≡ outcome_number x.outcome) × (state.new ≡ state_after x.outcome x.bridge.state state.old) }
{
    if x.outcome.is_ok() {
        encoding::store(state, x.bridge.state);
    }
    number(x.outcome)
}

// The number of a verdict, and the place and the code of a wrong byte, 0 where there is none.
pub(crate) fn in_numbers(v: Verdict) -> (u8, usize, u8)
    ensures { (result.0 ≡ verdict_number v) × (result.1 ≡ place_of v) × (result.2 ≡ code_in v) }
{
    match v {
        Verdict::Whole => (0, 0, 0),
        Verdict::Open => (1, 0, 0),
        Verdict::Wrong { place, code } => (2, place, code),
    }
}
