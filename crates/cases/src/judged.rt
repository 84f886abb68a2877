// A case of the judge: the bytes of the start state (include/bridge.h), and those to judge.
use crate::text::{say, say_refused};
use bridge::Bridge;
use grammar::Verdict;
use refusals::Refusal;
use state_bytes::decoding;

// (`judge` has the same; three lines are no reason for `verdicts`, which writes to a buffer, to stand on an output.)
fn show_verdict(v: Verdict) {
    let mut line = [0u8; verdicts::ROOM];
    let n = verdicts::put_verdict(&mut line, v);
    say(&line[..n]);
}

fn show_refused(why: Refusal) {
    say_refused(u8::from(why));
    say(b"\n");
}

fn show_judged(start: Bridge, bytes: &[u8]) {
    match start.judge(bytes) {
        Ok(v) => show_verdict(v),
        Err(why) => show_refused(why),
    }
}

// The verdict, or the refusal's number; bytes that are no state are refused as the library refuses them.
pub(crate) fn show(case: &[u8]) {
    let Some((start, bytes)) = case.split_at_checked(decoding::SIZE) else {
        say(b"no start\n");
        return;
    };
    let Some(state) = decoding::decoded(start) else {
        show_refused(Refusal::Ranges);
        return;
    };
    show_judged(Bridge { state }, bytes);
}
