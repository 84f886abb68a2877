// The judge's verdicts in words.
#![tactic(auto)]

ghost use Rattle.std.specs.Prelude.{◌≤◌, length, ◌≡◌};
ghost use Rattle.grammar.specs.declared.Verdict.TheVariants.{Wrong};
ghost use Rattle.verdicts.specs.Lines.{code_end, LineWritten};

use grammar::Verdict;

// The most bytes of a place's decimal digits, and those of a code's line end.
const DIGITS: usize = 20;

const CODE: usize = 6;

// Room for any line.
pub const ROOM: usize = 35;

// The end of a wrong place's line: the code's two hex digits in brackets.
fn code_end(code: u8) -> [u8; CODE]
    ensures { result ≡ code_end code }
{
    let mut digits = [0u8; 16];
    io::hex(code as u64, 2, &mut digits);
    [b' ', b'(', digits[0], digits[1], b')', b'\n']
}

// The caller shows room for any line.
fn put_wrong(out: &mut [u8], place: usize, code: u8) -> usize
    requires { 35 ≤ length out.old }
    ensures { LineWritten (Wrong place code) out.old out.new result }
{
    let mut digits = [0u8; DIGITS];
    let count = io::decimal(place as u64, &mut digits);
    let at = wire::put_bytes(out, 0, b"wrong at ");
    let next = wire::put_bytes(out, at, &digits[..count]);
    let end = code_end(code);
    wire::put_bytes(out, next, &end)
}

// Writes a verdict as a line, `whole`, `open` or `wrong at K (CODE)`, to the front of a buffer, and answers how many bytes it wrote.
// Not by a Display: `LineWritten` says each byte of the line and what the buffer holds beyond.
pub fn put_verdict(out: &mut [u8; ROOM], v: Verdict) -> usize
    ensures { LineWritten v out.old out.new result }
{
    match v {
        Verdict::Whole => wire::put_bytes(out, 0, b"whole\n"),
        Verdict::Open => wire::put_bytes(out, 0, b"open\n"),
        Verdict::Wrong { place, code } => put_wrong(out, place, code),
    }
}
