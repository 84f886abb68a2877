// The refusal that a session ends with, in the dump and on standard error.
use streams::{STDERR, STDOUT, complain, say};

fn write_refusal(fd: i32, number: u8, place: u64) {
    io::write_all(fd, b"refusal ");
    io::print_decimal(fd, number as u64);
    io::write_all(fd, b" at byte ");
    io::print_decimal(fd, place);
    io::write_all(fd, b": ");
    io::write_all(fd, refusals::words(number as usize));
}

// Says how a session ended, by the body of the record that says so, as a comment of the dump and on standard error. (`view`
// reads the same body to a struct that it keeps; what is shared is std's `from_le_bytes`.)
pub fn say_refusal(body: &[u8]) {
    let number = wire::byte_at(body, 0);
    let place = u32::from_le_bytes([
        wire::byte_at(body, 2),
        wire::byte_at(body, 3),
        wire::byte_at(body, 4),
        wire::byte_at(body, 5),
    ]) as u64;
    say(b"$comment\n");
    write_refusal(STDOUT, number, place);
    say(b"\n$end\n");
    complain(b"vcd: ");
    write_refusal(STDERR, number, place);
    complain(b"\n");
}
