// Commands by their names.
ghost use Rattle.std.specs.Prelude.{◌≡◌};
ghost use Rattle.text.specs.Named.{row_named};

// The row of the command that a word names, blanks at its end or not, up to the names' width: `row_named` says so of any word.
pub fn row_named(word: &[u8]) -> Option<usize>
    ensures { result ≡ row_named word.now }
{
    if names::NAME_WIDTH < word.len() {
        return None;
    }
    let mut padded = [b' '; names::NAME_WIDTH];
    padded[..word.len()].copy_from_slice(word);
    for row in 0..names::ROWS {
        if check::same(&padded, &names::name(row)) {
            return Some(row);
        }
    }
    None
}
