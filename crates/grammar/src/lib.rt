// The grammar of command streams, and the judge that decides it.
#![tactic(auto)]

ghost use Rattle.std.specs.Prelude.{◌≡◌};
ghost use Rattle.grammar.specs.Grammar.{cleared_context};
ghost use Rattle.grammar.specs.Verdict.{judge_of};

pub mod following;
mod rows;
mod scanning;

// An interface that can be selected.
#[derive(Clone, Copy, PartialEq, Eq)]
pub enum Interface {
    I2C,
    SPI,
    OneWire,
}

// 01's term: the context is the interface that is selected, configured or not, and N, the packet's size in bits.
#[derive(Clone, Copy)]
pub struct Context {
    pub interface: Option<Interface>,
    pub configured: bool,
    pub bits: u8,
}

// What an item does to the context.
#[derive(Clone, Copy)]
pub enum ContextChange {
    Keep,
    Clear,
    Select(Option<Interface>),
    Configure,
    Resize,
}

// Where a scanner stands: between items, after 1D, or inside an item with so many bytes to come after the next.
#[derive(Clone, Copy)]
pub enum Place {
    Between,
    Extended,
    Inside(ContextChange, u8),
}

#[derive(Clone, Copy)]
pub struct Scanner {
    pub context: Context,
    pub place: Place,
}

// The judge's answer: 01's whole, open, or wrong at a place, with the code that the device returns there.
#[derive(Clone, Copy)]
pub enum Verdict {
    Whole,
    Open,
    Wrong { place: usize, code: u8 },
}

// No interface, unconfigured, N 1: the context after 00, and at the factory start.
pub(crate) fn cleared_context() -> Context
    ensures { result ≡ cleared_context }
{
    Context {
        interface: None,
        configured: false,
        bits: 1,
    }
}

// Judges bytes from a context, item by item: whole, open, or wrong at the first place that can't be continued.
// It goes by places: a loop over the slice that is left took 23.2 instructions a byte in place of 18.1, one over the scanner's bytes 69.
pub fn judge(c: Context, bytes: &[u8]) -> Verdict
    ensures { result ≡ judge_of c bytes.now }
{
    let mut at = c;
    let mut extended = false;
    let mut i = 0;
    while i < bytes.len() {
        let b = bytes[i];
        if !rows::is_legal(at, b, extended) {
            let code = rows::code_for(at, b, extended);
            return Verdict::Wrong { place: i, code };
        }
        if (b == 0x1D) & !extended {
            extended = true;
            i += 1;
            continue;
        }
        // an operand may be any byte, and only an item's last can change the context
        let n = rows::operands_of(at, b, extended) as usize;
        if bytes.len() - i <= n {
            return Verdict::Open;
        }
        at = scanning::context_after(rows::change_of(b, extended), bytes[i + n], at);
        extended = false;
        i += n + 1;
    }
    if extended {
        return Verdict::Open;
    }
    Verdict::Whole
}
