// A case of switch-on: how many bytes the buffer for the actions has, its mark, how many the stored image has, the IOG count, the
// version and the serial number (four bytes), the stored image and the factory image.
use crate::text::{say, say_bytes, say_number, say_refused};
use refusals::Refusal;
use registers::State;
use state_bytes::{decoding, encoding};
use switch_on::Device;

// The most bytes of the buffer, and what it holds before.
const ROOM: usize = 64;

const BEFORE: u8 = 0xA5;

fn show_outcome(outcome: Result<(), Refusal>) {
    match outcome {
        Ok(()) => say(b"on"),
        Err(why) => say_refused(u8::from(why)),
    }
}

fn show_state(s: State) {
    let mut bytes = [0u8; decoding::SIZE];
    encoding::store(&mut bytes, s);
    say_bytes(b", state ", &bytes);
}

fn show_switched<'a>(
    stored: &'a [u8],
    factory: &'a [u8],
    device: Device,
    buffer: &mut [u8],
    mark: usize,
) {
    let r = switch_on::switch_on(stored, factory, device, buffer, mark);
    show_outcome(r.outcome);
    say_number(b", actions ", r.actions);
    say_bytes(b", buffer ", buffer);
    show_state(r.bridge.state);
    let settings = switch_on::settings(stored, factory, buffer.len(), mark);
    say_bytes(b", settings ", settings);
    say(b"\n");
}

fn show_images(images: &[u8], stored: usize, device: Device, room: usize, mark: usize) {
    let Some((stored, factory)) = images.split_at_checked(stored) else {
        say(b"no images\n");
        return;
    };
    let mut buffer = [BEFORE; ROOM];
    let Some(buffer) = buffer.get_mut(..room) else {
        say(b"no room\n");
        return;
    };
    show_switched(stored, factory, device, buffer, mark);
}

// The outcome, how many actions were written, the whole buffer, the state's bytes and the settings used.
pub(crate) fn show(case: &[u8]) {
    let [room, mark, stored, cycles, version, a, b, c, d, images @ ..] = case else {
        say(b"no images\n");
        return;
    };
    let device = Device {
        cycles: *cycles,
        version: *version,
        serial: [*a, *b, *c, *d],
    };
    show_images(
        images,
        usize::from(*stored),
        device,
        usize::from(*room),
        usize::from(*mark),
    );
}
