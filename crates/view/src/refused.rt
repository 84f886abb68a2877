// A refusal by its number, in words, with its place.
use wording::text::{Paper, Style, say, say_decimal};

// A refusal that the replay wrote.
#[derive(Clone, Copy)]
pub(crate) struct Refused {
    pub number: usize,
    pub place: usize,
}

// The number with its place.
pub(crate) fn say_number_and_place(r: Refused) {
    say(b"refusal ");
    say_decimal(r.number);
    say(b" at ");
    say_decimal(r.place);
}

pub(crate) fn say_refusal(paper: Paper, r: Refused) {
    paper.styled(Style::Red, || {
        say_number_and_place(r);
        say(b": ");
        say(refusals::words(r.number));
    });
    say(b"\n");
}

// The number (16 bits) and the place (32 bits) of a refusal by its record's body.
pub(crate) fn read_refusal(body: &[u8]) -> Option<Refused> {
    let [low, high, p0, p1, p2, p3] = *body.first_chunk::<6>()?;
    Some(Refused {
        number: u16::from_le_bytes([low, high]) as usize,
        place: u32::from_le_bytes([p0, p1, p2, p3]) as usize,
    })
}
