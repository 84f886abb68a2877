// Numbers that words write.
ghost use Rattle.std.specs.Prelude.{◌≡◌};
ghost use Rattle.text.specs.Words.{digit_of, hex_of, count_of};

// A hex digit's value.
fn digit(b: u8) -> Option<u8>
    ensures { result ≡ digit_of b }
{
    match b {
        b'0'..=b'9' => Some(b - b'0'),
        b'A'..=b'F' => Some(b - b'A' + 10),
        b'a'..=b'f' => Some(b - b'a' + 10),
        _ => None,
    }
}

// The byte that a word writes in two hex digits.
pub(crate) fn byte_of(word: &[u8]) -> Option<u8>
    ensures { result ≡ hex_of word.now }
{
    let [high, low] = word else {
        return None;
    };
    Some(16 * digit(*high)? + digit(*low)?)
}

// The count that a word writes in decimal.
pub(crate) fn count(word: &[u8]) -> Option<usize>
    ensures { result ≡ count_of word.now }
{
    let mut n: usize = 0;
    for b in word {
        let d = digit(*b)? as usize;
        if 9 < d || 9999 < n {
            return None;
        }
        n = 10 * n + d;
    }
    if n == 0 { None } else { Some(n) }
}
