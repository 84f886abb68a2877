// The input of a program: its options, and the file that its argument names, or standard input.
#![tactic(auto)]

mod arguments;

ghost use Rattle.std.specs.Prelude.{◌<◌, length, IfOk, IfSome};
ghost use Rattle.input.specs.Front.{IsFront};

use arguments::{argument, first, is_name};
pub use arguments::{goes_on, option};
use std::env::Env;
use std::fs::{File, Files};
use std::io::{Error, ErrorKind, Read};
use std::rt::Runtime;

// What the system says of a name that no buffer holds.
const ENAMETOOLONG: i32 = 36;

// Says on standard error what failed and why. A contract could only speak of standard error, so there is none.
pub fn fail(rt: &impl Eprint, what: &[u8], why: Error) {
    streams::complain(what);
    let _ = eprintln!(rt; ": {why}");
}

// Reads until the input ends, the buffer is full or a read fails, and answers what was read, the front of the buffer, beside that failure.
// (No `for`: each read says how far it got.)
pub fn read_front<'a, R: Read>(from: &mut R, buf: &'a mut [u8]) -> (&'a [u8], Result<(), Error>)
    ensures { IsFront buf.entry result.0 }
{
    let mut n: usize = 0;
    let mut end = Ok(());
    while n < buf.len() {
        let more = from.read(&mut buf[n..]).unwrap_or_else(|why| {
            end = Err(why);
            0
        });
        if more == 0 {
            break;
        }
        n += more;
    }
    (&buf[..n], end)
}

// Reads until the input ends or the buffer is full, and answers what was read, the front of the buffer; nothing if a read fails.
pub fn read_full<'a, R: Read>(from: &mut R, buf: &'a mut [u8]) -> Result<&'a [u8], Error>
    ensures { IfOk result (IsFront buf.entry) }
{
    let (front, end) = read_front(from, buf);
    end.map(|()| front)
}

// A path is UTF-8 text.
fn open_path<R: Files>(rt: &R, name: &[u8]) -> Result<R::File, Error> {
    match str::from_utf8(name) {
        Ok(path) => File::open(rt, path),
        Err(_) => Err(Error::from(ErrorKind::InvalidFilename)),
    }
}

// Opens the file that the first argument names. If it can't, a line on standard error says why. Which file that is, only the system
// knows, so there is no contract.
pub fn open<R: Env + Files + Eprint>(rt: &R) -> Option<R::File> {
    let mut word = io::buffer();
    let name = argument(rt, 1, &mut word);
    open_path(rt, name).map_err(|why| fail(rt, name, why)).ok()
}

// Reads the file of a name to the front of a buffer.
fn read_file<'a, R: Files>(rt: &R, name: &[u8], buf: &'a mut [u8]) -> Result<&'a [u8], Error>
    ensures { IfOk result (IsFront buf.entry) }
{
    read_full(&mut open_path(rt, name)?, buf)
}

// Reads the program's input to the front of a buffer, and answers that front: the whole input, or what a full buffer holds of it. If it
// can't be opened or read, a line on standard error says why.
pub fn read<'a>(rt: &impl Runtime, buf: &'a mut [u8]) -> Option<&'a [u8]>
    ensures { IfSome result (IsFront buf.entry) }
{
    let Some(place) = first(rt, 1, is_name) else {
        return read_full(&mut rt.reader(), buf)
            .map_err(|why| fail(rt, b"standard input", why))
            .ok();
    };
    let mut word = io::buffer();
    match rt.arg(place, &mut word) {
        Ok(n) => read_file(rt, &word[..n], buf)
            .map_err(|why| fail(rt, &word[..n], why))
            .ok(),
        Err(_) => {
            fail(rt, b"the argument", Error::from_raw_os_error(ENAMETOOLONG));
            None
        }
    }
}

// Reads the program's input, which is to be shorter than the buffer. If it is not, the line given is written to standard error.
pub fn read_shorter<'a>(rt: &impl Runtime, buf: &'a mut [u8], too_long: &[u8]) -> Option<&'a [u8]>
    ensures { IfSome result (λ input. (length input.now < length buf.old) × IsFront buf.entry input) }
{
    let room = buf.len();
    let input = read(rt, buf)?;
    if input.len() == room {
        streams::complain(too_long);
        return None;
    }
    Some(input)
}
