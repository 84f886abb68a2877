// The records that a replay writes.
ghost use Rattle.std.specs.Prelude.{◌≡◌, cond, ◌+◌, ◌≤◌, ◌<◌, length};
ghost use Rattle.wire.specs.Action.{bytes_of};
ghost use Rattle.wire.specs.Buffer.{Written};
ghost use Rattle.packet.specs.Packet.{width};
ghost use Rattle.signals.specs.Waveforms.{wave_of};
ghost use Rattle.effects.specs.Replies.{reply_bytes};
ghost use Rattle.transcript.specs.Transcript.{unless_empty, last_of, refusal_of};
ghost use Rattle.transcript.specs.Events.{Headed};
ghost use Rattle.registers.specs.Registers.{is_idle};

use effects::Reply;
use effects::sending::put_reply;
use records::kinds::OutputKind;
use records::reading::HEADER;
use records::writing::{put_head, put_record};
use refusals::Refusal;
use registers::{Page, State, Wait};
use signals::Waveform;

// The header in front of so many bytes of actions that stand in the buffer already, none if there are none.
fn put_actions_head(out: &mut [u8], size: usize) -> usize
    requires { 4 + size ≤ length out.old }
    ensures { Headed out.old 0x0102 size out.new result }
{
    if size == 0 {
        return 0;
    }
    put_head(out, 0, OutputKind::Actions as u16, size) + size
}

// A waveform's actions as a record, none if there are none, at the front of a buffer: behind room for their header, which is put
// there when they are counted. The caller shows that the size register is in range and that they fit.
pub(crate) fn put_actions(out: &mut [u8], page: Page, wave: Waveform, samples: &[u8]) -> usize
    requires { (page.size < width) × (4 + length (bytes_of (wave_of page wave samples.now 0).actions) ≤ length out.old) }
    ensures { Written out.old 0 (unless_empty 0x0102 (bytes_of (wave_of page wave samples.now 0).actions)) out.new result }
{
    let size = signals::write(&mut out[HEADER..], page, wave, samples, 0);
    put_actions_head(out, size)
}

// A reply of so many bytes as a record, none if it is empty, at a place. The caller shows that it has so many, that the size
// register is in range and that they fit there.
pub(crate) fn put_replies(out: &mut [u8], at: usize, s: State, reply: Reply, size: usize) -> usize
    requires { (s.page.size < width) × (size ≡ length (reply_bytes s reply)) × (at + 4 + size ≤ length out.old) }
    ensures { Written out.old at (unless_empty 0x0101 (reply_bytes s reply)) out.new result }
{
    if size == 0 {
        return at;
    }
    let n = put_head(out, at, OutputKind::Replies as u16, size);
    put_reply(&mut out[n..], s, reply);
    n + size
}

// 1 if something is waited for.
fn waits(w: Wait) -> u8
    ensures { result ≡ cond (is_idle w) 0 1 }
{
    if registers::is_idle(w) { 0 } else { 1 }
}

// The last record, at the front of a buffer in which the caller shows room for it.
pub fn put_last(out: &mut [u8], w: Wait) -> usize
    requires { 5 ≤ length out.old }
    ensures { Written out.old 0 (last_of w) out.new result }
{
    let b = waits(w);
    put_record(out, 0, OutputKind::Last as u16, &[b])
}

// The record of a refusal, at the front of a buffer in which the caller shows room for it.
pub fn put_refusal(out: &mut [u8], why: Refusal, place: usize) -> usize
    requires { 10 ≤ length out.old }
    ensures { Written out.old 0 (refusal_of why place) out.new result }
{
    let n = u8::from(why) as u16;
    let low = (n % 256) as u8;
    let high = (n / 256 % 256) as u8;
    let a = (place % 256) as u8;
    let b = (place / 256 % 256) as u8;
    let c = (place / 65536 % 256) as u8;
    let d = (place / 16777216 % 256) as u8;
    put_record(out, 0, OutputKind::Refusal as u16, &[low, high, a, b, c, d])
}
