//! The characters of words, in ASCII by a table of bits: each start asks for the one before it.
ghost use Rattle.std.specs.Prelude.{◌≡◌};
ghost use Rattle.tm_onig_class.specs.Listed.{in_listed};
ghost use Rattle.tm_onig_class.specs.declared.listed.Listed.TheVariants as L;

use tm_onig_class::listed;

/// The members of `word` in ASCII, as bits: letters, digits and `_`.
pub(crate) const ASCII_WORD: u128 = 0x07FF_FFFE_87FF_FFFE_03FF_0000_0000_0000;

/// The others in ASCII.
pub(crate) const ASCII_OTHER: u128 = 0xF800_0001_7800_0001_FC00_FFFF_FFFF_FFFF;

/// Whether the character is in `word`.
pub(crate) fn is_word(c: char) -> bool
    ensures { result ≡ in_listed L.Word c }
{
    let code = c as u32;
    if code < 128 {
        (ASCII_WORD >> code) & 1 == 1
    } else {
        listed::is_word(c)
    }
}
