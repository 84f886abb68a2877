// Text on standard output, in colour only where that is asked for.
use streams::STDOUT;
pub use streams::{say, say_decimal, say_hex};

// So many of a thing that is named by its singular.
pub fn say_count(n: usize, thing: &[u8]) {
    say_decimal(n);
    say(thing);
    if n != 1 {
        say(b"s");
    }
}

// How a text stands out.
#[derive(Clone, Copy)]
pub enum Style {
    Bold,
    Green,
    Red,
}

// What the text is written on: with colour or without.
#[derive(Clone, Copy)]
pub enum Paper {
    Plain,
    Colored,
}

fn begin(style: Style) {
    match style {
        Style::Bold => say(b"\x1b[1m"),
        Style::Green => say(b"\x1b[32m"),
        Style::Red => say(b"\x1b[31m"),
    }
}

impl Paper {
    // What is written there stands out. The caller shows that it may be written.
    pub fn styled<F: FnOnce()>(self, style: Style, write: F)
        requires { F.pre write }
        ensures { F.post write result }
    {
        match self {
            Paper::Plain => write(),
            Paper::Colored => {
                begin(style);
                write();
                say(b"\x1b[0m");
            }
        }
    }
}

// The end of the whole text; if it can't be written, standard error says so.
pub fn finish() {
    if !io::write_all(STDOUT, b"\n") {
        streams::complain(b"standard output: cannot be written\n");
    }
}
