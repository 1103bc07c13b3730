//! Characters by rank: how many characters come before. Ranks leave out the numbers 0xD800 to
//! 0xDFFF, which are no characters, so U+E000 comes directly after U+D7FF.
ghost use Rattle.std.specs.Prelude.{◌≡◌};
ghost use Rattle.tm_onig_class.specs.Ranks.{rank_of, rank_from, rank_to};

/// The rank of U+10FFFF.
pub(crate) const LAST_RANK: u32 = 0x10_F7FF;

pub(crate) fn rank(c: char) -> u32
    ensures { result ≡ rank_of c }
{
    rank_of_code(c as u32)
}

pub(crate) fn rank_of_code(code: u32) -> u32
    ensures { result ≡ rank_of code }
{
    if code < 0xD800 { code } else { code - 0x800 }
}

/// The rank of the first character from a code point on.
pub(crate) fn rank_from(code: u32) -> u32
    ensures { result ≡ rank_from code }
{
    if code < 0xD800 {
        code
    } else if code < 0xE000 {
        0xD800
    } else {
        code - 0x800
    }
}

/// The rank of the last character up to a code point.
pub(crate) fn rank_to(code: u32) -> u32
    ensures { result ≡ rank_to code }
{
    if code < 0xD800 {
        code
    } else if code < 0xE000 {
        0xD7FF
    } else {
        (code - 0x800).min(LAST_RANK)
    }
}
