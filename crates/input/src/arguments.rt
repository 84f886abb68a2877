// The arguments of a program: options, which start with `-`, and at most one name of a file. What a word is by its bytes is proved. Which
// words the arguments are, the contracts of the system's calls don't say, so a function that asks for them promises nothing of their bytes.
ghost use Rattle.std.specs.List.{slice_split};
ghost use Rattle.std.specs.Prelude.{◌==◌, ◌≡◌, ◌<◌, ◌↔◌, length, IsTrue, not};
ghost use Rattle.input.specs.Arguments.{Among, split_at_spaces, is_option, IsUnknown};
ghost use Rattle.input.specs.Front.{IsFront};

use std::env::{Env, FillError};
use streams::{complain, say};

// A list of words, each one but the last followed by a space, with no space at its end: std's `split` would see an empty word after it.
fn stripped(list: &[u8]) -> &[u8]
    ensures { 0 < length list.now → slice_split (λ b. b == 0x20) result.now ≡ split_at_spaces list.now }
{
    list.strip_suffix(b" ").unwrap_or(list)
}

// Whether such a list has a word. std's `split` of an empty list would give an empty word.
fn has_word(list: &[u8], word: &[u8]) -> bool
    ensures { IsTrue result ↔ Among word.now (split_at_spaces list.now) }
{
    !list.is_empty() && stripped(list).split(|b| *b == b' ').any(|w| w == word)
}

fn is_option(word: &[u8]) -> bool
    ensures { result ≡ is_option word.now }
{
    word.first() == Some(&b'-')
}

pub(crate) fn is_name(word: &[u8]) -> bool
    ensures { result ≡ not (is_option word.now) }
{
    !is_option(word)
}

// Whether a word looks like an option and is none of the program's.
fn is_unknown(word: &[u8], options: &[u8]) -> bool
    ensures { IsTrue result ↔ IsUnknown options.now word.now }
{
    is_option(word) && !has_word(options, word)
}

// Puts an argument at the start of the buffer and answers it. One that is missing or too long counts as empty, which is a name.
pub(crate) fn argument<'a>(rt: &impl Env, place: usize, word: &'a mut [u8]) -> &'a [u8]
    ensures { IsFront word.entry result }
{
    let n = rt.arg(place, word).unwrap_or(0);
    &word[..n]
}

// One that does not fit is given too.
fn is_given(rt: &impl Env, place: usize) -> bool {
    !matches!(rt.arg(place, &mut [0u8; 1]), Err(FillError::NotPresent))
}

fn is_at<F: Fn(&[u8]) -> bool>(rt: &impl Env, place: usize, meets: &F) -> bool
    requires { F.IsAlwaysCallable meets.now }
{
    let mut word = io::buffer();
    meets(argument(rt, place, &mut word))
}

// The place of the first argument from a place on that meets a test.
pub(crate) fn first<F: Fn(&[u8]) -> bool>(rt: &impl Env, from: usize, meets: F) -> Option<usize>
    requires { F.IsAlwaysCallable meets }
{
    for place in from..usize::MAX {
        if !is_given(rt, place) {
            return None;
        }
        if is_at(rt, place, &meets) {
            return Some(place);
        }
    }
    None
}

// Whether the program was started with an option. A contract could only speak of the arguments, so there is none; which words are the
// option, the test's own clause says.
pub fn option(rt: &impl Env, name: &[u8]) -> bool {
    let known = |word: &[u8]| -> bool
        ensures { IsTrue result ↔ Among word.now (split_at_spaces name.entry.now) }
    { has_word(name, word) };
    first(rt, 1, known).is_some()
}

// Says on standard error that an argument is not understood, and how the program is used.
fn refuse(rt: &impl Env, place: usize, usage: &[u8]) {
    let mut word = io::buffer();
    complain(argument(rt, place, &mut word));
    complain(b": unknown argument\n");
    complain(usage);
}

// The place of the first argument that is neither one of the options nor the first name. Which words are unknown, the test's own clause
// says.
fn first_unknown(rt: &impl Env, options: &[u8]) -> Option<usize> {
    let unknown = |word: &[u8]| -> bool
        ensures { IsTrue result ↔ IsUnknown options.entry.now word.now }
    { is_unknown(word, options) };
    first(rt, 1, unknown).or_else(|| {
        let name = first(rt, 1, is_name)?;
        first(rt, name.saturating_add(1), is_name)
    })
}

// Whether the program is to go on: `--help` is answered with the usage, and an argument that is not known is refused. The options
// beside `--help` are a list of words with a space between. A contract could only speak of the arguments, so there is none.
pub fn goes_on(rt: &impl Env, usage: &[u8], options: &[u8]) -> bool {
    if option(rt, b"--help") {
        say(usage);
        return false;
    }
    if let Some(place) = first_unknown(rt, options) {
        refuse(rt, place, usage);
        return false;
    }
    true
}
