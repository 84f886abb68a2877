// The words of a script.
ghost use Rattle.std.specs.Prelude.{◌≡◌, ◌==◌, ℕ, Bool, ◌<◌};
ghost use Rattle.text.specs.Words.{is_blank, in_word, in_line, is_in, past, word_at, text_of};

// The bytes between words, those of a word, and those of a line.
#[derive(Clone, Copy)]
pub enum Class {
    Blank,
    Word,
    Line,
}

// A word, from its start to its end; where both are one there is none. (No Option: where no word is, its place is where something is
// missing.)
#[derive(Clone, Copy)]
pub struct Word {
    pub start: usize,
    pub end: usize,
}

impl Word {
    pub fn is_none(self) -> bool
        ensures { result ≡ (self.start == self.end) }
    {
        self.start == self.end
    }

    // The word's bytes, as far as the text goes.
    pub fn bytes(self, text: &[u8]) -> &[u8]
        ensures { result.now ≡ text_of text.now self }
    {
        let rest = text.get(self.start..).unwrap_or(&[]);
        rest.get(..self.end.saturating_sub(self.start))
            .unwrap_or(rest)
    }
}

// Between words.
pub fn is_blank(b: u8) -> bool
    ensures { result ≡ is_blank b }
{
    matches!(b, b' ' | b'\t' | b'\r')
}

// A word's bytes: a line's end or a comment's `#` ends it.
pub fn in_word(b: u8) -> bool
    ensures { result ≡ in_word b }
{
    !is_blank(b) && b != b'\n' && b != b'#'
}

// The end of the run of bytes that pass a test, from a place on. The caller shows that the test may be called.
pub fn run_end<F: Fn(u8) -> bool>(text: &[u8], passes: F, at: usize) -> usize
    requires { F.IsAlwaysCallable passes }
    ensures { (p : ℕ → Bool) → ((b : ℕ) → (r : Bool) → b < 256 → F.post passes b r → r ≡ p b) → result ≡ past text.now p at }
{
    for i in at..text.len() {
        if !passes(text[i]) {
            return i;
        }
    }
    text.len().max(at)
}

// The place past the bytes of a class, from a place on. A class and no test is its argument, so it asks nothing of its callers.
pub fn past(text: &[u8], class: Class, at: usize) -> usize
    ensures { result ≡ past text.now (is_in class) at }
{
    match class {
        Class::Blank => run_end(text, is_blank, at),
        Class::Word => run_end(text, in_word, at),
        Class::Line => run_end(text, |b| b != b'\n', at),
    }
}

// The place of the line's end, from a place on.
pub fn line_end(text: &[u8], at: usize) -> usize
    ensures { result ≡ past text.now in_line at }
{
    past(text, Class::Line, at)
}

// The next word from a place on.
pub fn word_at(text: &[u8], at: usize) -> Word
    ensures { result ≡ word_at text.now at }
{
    let start = past(text, Class::Blank, at);
    let end = past(text, Class::Word, start);
    Word { start, end }
}
