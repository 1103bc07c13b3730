//! Fronts and rests of texts.
ghost use Rattle.std.specs.Prelude.{◌≡◌, ◌==◌, ◌&&◌, option_map};
ghost use Rattle.tm_onig_atom.specs.Escapes.{begins};
ghost use Rattle.tm_onig_atom.specs.inner.Reading.{before, rest_of};

/// The characters before the next such character, and what stands behind it.
pub(crate) fn before(end: char, text: &[char]) -> Option<(&[char], &[char])>
    ensures { option_map (λ x. (x.0.now, x.1.now)) result ≡ before end text.now }
{
    'chars: for i in 0..text.len() {
        if text[i] == end {
            return Some((&text[..i], &text[i + 1..]));
        }
    }
    None
}

/// The text without its first character.
pub fn tail(text: &[char]) -> &[char]
    ensures { result.now ≡ rest_of text.now }
{
    match text {
        [_, after @ ..] => after,
        _ => text,
    }
}

/// Whether the character is an `&` and the text begins with another.
pub(crate) fn meets(c: char, text: &[char]) -> bool
    ensures { result ≡ ((c == 38) && begins 38 text.now) }
{
    match text {
        ['&', ..] => c == '&',
        _ => false,
    }
}
