// The standard streams that programs write to. A contract could only speak of the streams, so no function here has one.
#![tactic(auto)]

// The numbers by which the system knows standard output and standard error.
pub const STDOUT: i32 = 1;

pub const STDERR: i32 = 2;

// Writes to standard output, as far as it can be written.
pub fn say(text: &[u8]) {
    io::write_all(STDOUT, text);
}

// Writes a number to standard output in decimal.
pub fn say_decimal(n: usize) {
    io::print_decimal(STDOUT, n as u64);
}

// Writes a byte to standard output as two hex digits.
pub fn say_hex(byte: u8) {
    io::print_hex(STDOUT, u64::from(byte), 2);
}

// Writes to standard error, as far as it can be written.
pub fn complain(text: &[u8]) {
    io::write_all(STDERR, text);
}
