// What a step of the replay wrote: at most a record of actions and one of replies, or a refusal.
ghost use Rattle.std.specs.Prelude.{◌<◌, length, IfSome};

use crate::refused::{Refused, read_refusal};
use records::kinds::OutputKind;
use records::reading::record_at;

// The first record of an output, by its kind and its body, and what stands after it.
pub(crate) fn first_record(out: &[u8]) -> Option<(OutputKind, &[u8], &[u8])>
    ensures { IfSome result (λ r. length r.2.now < length out.now) }
{
    let Ok(Some(body)) = record_at(out, 0) else {
        return None;
    };
    let kind = OutputKind::try_from(body.kind).ok()?;
    Some((kind, &out[body.start..body.end], &out[body.end..]))
}

// The refusal that a step wrote, if it wrote one.
pub(crate) fn refusal_in(out: &[u8]) -> Option<Refused> {
    match first_record(out)? {
        (OutputKind::Refusal, body, _) => read_refusal(body),
        _ => None,
    }
}
