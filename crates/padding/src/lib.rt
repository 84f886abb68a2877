// Texts in tables, padded with blanks to one width.
#![tactic(auto)]

ghost use Rattle.std.specs.Prelude.{◌≡◌};
ghost use Rattle.padding.specs.Padding.{trimmed_of};

// A text without the blanks at its end.
pub fn trimmed(text: &[u8]) -> &[u8]
    ensures { result.now ≡ trimmed_of text.now }
{
    for i in (0..text.len()).rev() {
        if text[i] != b' ' {
            return &text[..=i];
        }
    }
    &[]
}
