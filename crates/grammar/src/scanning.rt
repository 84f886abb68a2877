// The scanner, byte by byte.
ghost use Rattle.std.specs.Prelude.{◌≡◌};
ghost use Rattle.grammar.specs.Grammar.{context_after};
ghost use Rattle.grammar.specs.Scanner.{going, opened, scan};
ghost use Rattle.grammar.specs.Following.{opening_in};

use crate::{Context, ContextChange, Place, Scanner, rows};

// The context after an item whose last byte is b.
pub(crate) fn context_after(e: ContextChange, b: u8, c: Context) -> Context
    ensures { result ≡ context_after e b c }
{
    match e {
        ContextChange::Keep => c,
        ContextChange::Clear => crate::cleared_context(),
        ContextChange::Select(interface) => Context { interface, ..c },
        ContextChange::Configure => Context {
            configured: true,
            ..c
        },
        ContextChange::Resize => Context {
            bits: packet::size_of(b),
            ..c
        },
    }
}

// Where the scanner stands after the byte b, with n more of its item to come.
fn advance(e: ContextChange, n: u8, b: u8, c: Context) -> Scanner
    ensures { result ≡ going e n b c }
{
    if n == 0 {
        return Scanner {
            context: context_after(e, b, c),
            place: Place::Between,
        };
    }
    Scanner {
        context: c,
        place: Place::Inside(e, n - 1),
    }
}

fn open_item(c: Context, b: u8, extended: bool) -> Result<Scanner, u8>
    ensures { result ≡ opened (opening_in b extended) c b }
{
    if !rows::is_legal(c, b, extended) {
        return Err(rows::code_for(c, b, extended));
    }
    if (b == 0x1D) & !extended {
        return Ok(Scanner {
            context: c,
            place: Place::Extended,
        });
    }
    let n = rows::operands_of(c, b, extended);
    let e = rows::change_of(b, extended);
    Ok(advance(e, n, b, c))
}

// What the scanner makes of a byte.
pub(crate) fn scan_byte(g: Scanner, b: u8) -> Result<Scanner, u8>
    ensures { result ≡ scan g b }
{
    let c = g.context;
    match g.place {
        Place::Between => open_item(c, b, false),
        Place::Extended => open_item(c, b, true),
        Place::Inside(e, n) => Ok(advance(e, n, b, c)),
    }
}
