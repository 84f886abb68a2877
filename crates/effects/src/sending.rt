// The reply bytes, measured and written.
ghost use Rattle.std.specs.Prelude.{◌≡◌, ◌<◌, ◌≤◌, length};
ghost use Rattle.packet.specs.Packet.{width};
ghost use Rattle.wire.specs.Buffer.{Written};
ghost use Rattle.effects.specs.Replies.{reply_bytes};

use crate::Reply;
use registers::State;
use registers::parts::bits_of;

// How many bytes a reply is. The caller shows that the size register is in range.
pub fn reply_size(s: State, reply: Reply) -> usize
    requires { s.page.size < width }
    ensures { result ≡ length (reply_bytes s reply) }
{
    let bits = bits_of(s.page.size);
    match reply {
        Reply::Empty => 0,
        Reply::One(_) => 1,
        Reply::Two(_, _) => 2,
        Reply::Eprom => s.shared.eprom.len(),
        Reply::Serial => s.shared.serial.len(),
        Reply::Timings => s.page.timings.len(),
        Reply::Packet => s.page.packet.len(),
        Reply::Low => packet::low_size(s.page.packet, bits),
        Reply::OneThenLow(_) => packet::low_size(s.page.packet, bits) + 1,
    }
}

// Writes a reply at the start of the unused part of a lent buffer, and answers how many bytes it is. The caller shows that the
// size register is in range and that it fits.
pub fn put_reply(out: &mut [u8], s: State, reply: Reply) -> usize
    requires { (s.page.size < width) × (length (reply_bytes s reply) ≤ length out.old) }
    ensures { Written out.old 0 (reply_bytes s reply) out.new result }
{
    let bits = bits_of(s.page.size);
    match reply {
        Reply::Empty => 0,
        Reply::One(a) => wire::put_bytes(out, 0, &[a]),
        Reply::Two(a, b) => wire::put_bytes(out, 0, &[a, b]),
        Reply::Eprom => wire::put_bytes(out, 0, &s.shared.eprom),
        Reply::Serial => wire::put_bytes(out, 0, &s.shared.serial),
        Reply::Timings => wire::put_bytes(out, 0, &s.page.timings),
        Reply::Packet => wire::put_bytes(out, 0, &s.page.packet),
        Reply::Low => packet::put_low(out, s.page.packet, bits),
        Reply::OneThenLow(a) => {
            let at = wire::put_bytes(out, 0, &[a]);
            at + packet::put_low(&mut out[at..], s.page.packet, bits)
        }
    }
}
