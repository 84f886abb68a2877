// A script, which is a text, made into the records of a session.
#![tactic(auto)]

ghost use Rattle.std.specs.Prelude.{◌≡◌, length};
ghost use Rattle.text.specs.Lists.{Reads};
ghost use Rattle.script.specs.Script.{handed_bytes, script_of};

mod cut;
mod statements;

use grammar::following;
use grammar::following::Stream;
use records::kinds::Kind;
use records::reading::MOST_SESSION;
use text::{Assembled, words};

// Where the stream stands after a statement's bytes, for records of a kind.
fn hand_over(g: Stream, kind: Kind, bytes: &[u8]) -> Stream
    ensures { result ≡ handed_bytes g kind bytes.now }
{
    match kind {
        Kind::Bytes => following::after_bytes(g, bytes),
        Kind::Fault => following::after_fault(g),
        Kind::Samples => g,
    }
}

// A script's records, to the front of the output, up to the first line that is wrong or does not fit. Any text and any output
// will do. (The loop goes by places of the text, as the definition does: what is wrong in a line is a place of the whole text.)
pub fn assemble(text: &[u8], out: &mut [u8]) -> Assembled
    ensures { Reads (script_of text.now (length out.old)) out.old 0 out.new result }
{
    let mut body = [0u8; MOST_SESSION];
    let mut g = following::start();
    let mut at: usize = 0;
    let mut size: usize = 0;
    while at < text.len() {
        let said = match statements::statement(text, g.scanner.context, at, &mut body) {
            Ok(said) => said,
            Err(wrong) => {
                return Assembled {
                    size,
                    outcome: Err(wrong),
                };
            }
        };
        if let Some(said) = said {
            let bytes = &body[..said.size];
            let put = cut::put_records(out, size, said.kind, bytes, at);
            if put.outcome.is_err() {
                return put;
            }
            size = put.size;
            g = hand_over(g, said.kind, bytes);
        }
        at = words::line_end(text, at) + 1;
    }
    Assembled {
        size,
        outcome: Ok(()),
    }
}
