// What is wrong with a script, in words, on a descriptor that the caller names. No contract here says what is written: a call to
// the system has none that could say it. The program `scripts` compares it.
#![tactic(auto)]

use text::{Expected, Wrong};

fn say(fd: i32, text: &[u8]) {
    io::write_all(fd, text);
}

// No Display: with it come a type for the line and a writer round the descriptor, more than the two functions here.
fn say_expected(fd: i32, e: Expected) {
    match e {
        Expected::Statement => say(fd, b"send, samples, fault or a command's name"),
        Expected::Byte => say(fd, b"a byte in two hex digits"),
        Expected::Count => say(fd, b"a count from 1 to 99999"),
        Expected::Fault => say(fd, b"frame, overrun or parity"),
        Expected::LineEnd => say(fd, b"the line's end"),
        Expected::Operands(0) => say(fd, b"no operand"),
        Expected::Operands(1) => say(fd, b"one operand"),
        Expected::Operands(n) => {
            io::print_decimal(fd, n as u64);
            say(fd, b" operands");
        }
        Expected::Room => say(fd, b"no more than 32,768 bytes in all"),
    }
}

// Says in a line where a script is wrong and what was expected there. It answers nothing and is lent nothing to change, and what is
// written to a descriptor no contract can say, so it has none; where the place stands is `text::place::position`'s to promise.
pub fn explain(fd: i32, text: &[u8], wrong: Wrong) {
    let p = text::place::position(text, wrong.place);
    say(fd, b"line ");
    io::print_decimal(fd, p.line as u64);
    say(fd, b", column ");
    io::print_decimal(fd, p.column as u64);
    say(fd, b": expected ");
    say_expected(fd, wrong.expected);
    say(fd, b"\n");
}
