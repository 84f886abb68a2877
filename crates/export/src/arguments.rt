// What C hands over as numbers: an event, a device, a cursor.
ghost use Rattle.std.specs.Prelude.{◌≡◌, true, OnOk};
ghost use Rattle.state_bytes.specs.StateBytes.{is_state};
ghost use Rattle.export.specs.Exported.{bridge_asked, event_asked, without_event, device_of};
ghost use Rattle.export.specs.Replaying.{c_cursor, cursor_asked};

use bridge::Bridge;
use refusals::Refusal;
use registers::{Event, Fault, State};
use session::replay::Cursor;
use state_bytes::decoding;
use switch_on::Device;

// The kinds of events, by the numbers of include/bridge.h.
const BYTE: u8 = 1;

const FAULT: u8 = 2;

// The bridge whose state these bytes are, if they are a state's. (Inlined, as `decoded` is.)
#[tactic(auto, using(state_bytes::proofs::Back::state_facts))]
#[inline(always)]
pub(crate) fn bridge_in(state: &[u8]) -> Result<Bridge, Refusal>
    ensures gives { result ≡ bridge_asked state.now }
    ensures is_state { OnOk result (is_state state.now ≡ true) }
{
    let state = decoding::decoded(state).ok_or(Refusal::Ranges)?;
    Ok(Bridge { state })
}

// An event by its kind and its value.
pub(crate) fn event_of(kind: u8, value: u8) -> Result<Event, Refusal>
    ensures { result ≡ event_asked kind value }
{
    match kind {
        BYTE => Ok(Event::Byte(value)),
        FAULT => match Fault::try_from(value) {
            Ok(fault) => Ok(Event::Fault(fault)),
            Err(_) => Err(Refusal::FaultBody),
        },
        _ => Err(Refusal::Kind),
    }
}

// Why a call without an event is refused: the lowest refusal that applies.
pub(crate) fn no_event(
    s: State,
    why: Refusal,
    samples: usize,
    sampled: usize,
    actions: usize,
    acted: usize,
    replies: usize,
    replied: usize,
) -> Refusal
    ensures { result ≡ without_event s why samples sampled actions acted replies replied }
{
    if !registers::in_range(s) {
        Refusal::Ranges
    } else if !wire::fits(samples, sampled, 0) {
        Refusal::Samples
    } else if !wire::fits(actions, acted, 0) {
        Refusal::Actions
    } else if !wire::fits(replies, replied, 0) {
        Refusal::Replies
    } else {
        why
    }
}

// What the device has besides an image, with its serial number as bytes.
pub(crate) fn device(cycles: u8, version: u8, serial: u32) -> Device
    ensures { result ≡ device_of cycles version serial }
{
    Device {
        cycles,
        version,
        serial: serial.to_le_bytes(),
    }
}

// A replay's cursor; it is done with any mark but 0. (Inlined, as `decoded` is.)
#[inline(always)]
pub(crate) fn cursor_of(
    state: &[u8],
    at: usize,
    end: usize,
    sample: usize,
    sampled: usize,
    done: u8,
) -> Result<Cursor, Refusal>
    ensures gives { result ≡ cursor_asked (c_cursor state.now at end sample sampled done) }
    ensures is_state { OnOk result (is_state state.now ≡ true) }
{
    Ok(Cursor {
        bridge: bridge_in(state)?,
        at,
        end,
        sample,
        sampled,
        done: done != 0,
    })
}
