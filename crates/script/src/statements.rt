// The statements of a script.
ghost use Rattle.std.specs.Prelude.{◌≡◌, ◌≤◌};
ghost use Rattle.wire.specs.Buffer.{Written};
ghost use Rattle.script.specs.Statements.{fault_named, fault_at, opening, takes, command_at, list_at, statement_by, statement_at};
ghost use Rattle.script.specs.Parsed.{Parses, list_parsed, command_parsed};

use grammar::{Context, following};
use records::kinds::Kind;
use records::reading::MOST_SESSION;
use registers::Fault;
use text::lists::list;
use text::named::row_named;
use text::words::{Word, word_at};
use text::{Assembled, Expected, Wrong};

// The byte before an extended command's.
const EXTENDED: u8 = 0x1D;

// What a line says: so many bytes at the front of a buffer, for records of a kind.
#[derive(Clone, Copy)]
pub(crate) struct Parsed {
    pub kind: Kind,
    pub size: usize,
}

// A list of a kind after a keyword that ends at a place, read to a buffer.
fn list_parsed(kind: Kind, place: usize, r: Assembled) -> Result<Option<Parsed>, Wrong>
    ensures { result ≡ list_parsed kind place r }
{
    r.outcome?;
    if r.size == 0 {
        return Err(Wrong {
            place,
            expected: Expected::Byte,
        });
    }
    Ok(Some(Parsed { kind, size: r.size }))
}

// The code of the fault that a word names: the byte of its record's body.
fn fault_named(word: &[u8]) -> Option<u8>
    ensures { result ≡ fault_named word.now }
{
    if check::same(word, b"frame") {
        return Some(u8::from(Fault::Frame));
    }
    if check::same(word, b"overrun") {
        return Some(u8::from(Fault::Overrun));
    }
    if check::same(word, b"parity") {
        return Some(u8::from(Fault::Parity));
    }
    None
}

// A fault by the word that names it.
fn fault(text: &[u8], w: Word, body: &mut [u8; MOST_SESSION]) -> Result<Option<Parsed>, Wrong>
    ensures { Parses (fault_at text.now w) body.new result }
{
    let code = fault_named(w.bytes(text)).ok_or(Wrong {
        place: w.start,
        expected: Expected::Fault,
    })?;
    let end = word_at(text, w.end);
    if !end.is_none() {
        return Err(Wrong {
            place: end.start,
            expected: Expected::LineEnd,
        });
    }
    let size = wire::put_bytes(body, 0, &[code]);
    Ok(Some(Parsed {
        kind: Kind::Fault,
        size,
    }))
}

// The bytes of a row's command before its operands, to the front of a buffer.
fn put_opening(row: usize, body: &mut [u8; MOST_SESSION]) -> usize
    ensures { Written body.old 0 (opening row) body.new result }
{
    let code = names::code(row);
    if names::extended(row) {
        return wire::put_bytes(body, 0, &[EXTENDED, code]);
    }
    wire::put_bytes(body, 0, &[code])
}

// How many operands a row's command takes in a context.
fn takes(c: Context, row: usize) -> u8
    ensures { result ≡ takes c row }
{
    following::operands(c, names::code(row), names::extended(row))
}

// A row's command with its name's place, with its operands read behind its first bytes. The caller shows that they are behind them.
fn command_parsed(
    c: Context,
    row: usize,
    place: usize,
    from: usize,
    r: Assembled,
) -> Result<Option<Parsed>, Wrong>
    requires { from ≤ r.size }
    ensures { result ≡ command_parsed c row place from r }
{
    r.outcome?;
    let wanted = takes(c, row);
    if r.size - from != wanted as usize {
        return Err(Wrong {
            place,
            expected: Expected::Operands(wanted),
        });
    }
    Ok(Some(Parsed {
        kind: Kind::Bytes,
        size: r.size,
    }))
}

// A command by the row that its name has.
fn command(
    text: &[u8],
    c: Context,
    w: Word,
    row: Option<usize>,
    body: &mut [u8; MOST_SESSION],
) -> Result<Option<Parsed>, Wrong>
    ensures { Parses (command_at text.now c w row) body.new result }
{
    let row = row.ok_or(Wrong {
        place: w.start,
        expected: Expected::Statement,
    })?;
    let from = put_opening(row, body);
    let r = list(text, w.end, body, from);
    command_parsed(c, row, w.start, from, r)
}

// A list of a kind, after a keyword that ends at a place.
fn list_at(
    text: &[u8],
    kind: Kind,
    at: usize,
    body: &mut [u8; MOST_SESSION],
) -> Result<Option<Parsed>, Wrong>
    ensures { Parses (list_at text.now kind at) body.new result }
{
    let r = list(text, at, body, 0);
    list_parsed(kind, at, r)
}

// The statement that begins with a word.
fn statement_by(
    text: &[u8],
    c: Context,
    w: Word,
    body: &mut [u8; MOST_SESSION],
) -> Result<Option<Parsed>, Wrong>
    ensures { Parses (statement_by text.now c w) body.new result }
{
    if w.is_none() {
        return Ok(None);
    }
    let word = w.bytes(text);
    if check::same(word, b"send") {
        return list_at(text, Kind::Bytes, w.end, body);
    }
    if check::same(word, b"samples") {
        return list_at(text, Kind::Samples, w.end, body);
    }
    if check::same(word, b"fault") {
        return fault(text, word_at(text, w.end), body);
    }
    command(text, c, w, row_named(word), body)
}

// The statement of the line at a place of the text, with its bytes at the front of a buffer.
pub(crate) fn statement(
    text: &[u8],
    c: Context,
    at: usize,
    body: &mut [u8; MOST_SESSION],
) -> Result<Option<Parsed>, Wrong>
    ensures { Parses (statement_at text.now c at) body.new result }
{
    statement_by(text, c, word_at(text, at), body)
}
