//! A table of 128 bits in front of a set's ranges: most characters of most lines are in ASCII, and
//! for those membership is one shift.
ghost use Rattle.std.specs.Prelude.{◌≡◌, ℕ, ◌<◌, ◌||◌, ◌&&◌, ◌==◌};
ghost use Rattle.tm_onig_class.specs.Ascii.{has_bit, AgreeBelow};

use regex_class::Class;

/// The table with one more bit, if it is to be set.
fn with_bit(table: u128, code: u32, is: bool) -> u128
    requires { code < 128 }
    ensures { (i : ℕ) → has_bit result i ≡ (has_bit table i || (is && (i == code))) }
{
    if is { table | (1 << code) } else { table }
}

/// The members below 128, as bits.
pub(crate) fn ascii_of(class: &Class) -> u128
    ensures { AgreeBelow 128 result class.now.ranges.items }
{
    let mut ascii = 0;
    for code in 0..128 {
        ascii = with_bit(ascii, code, class.contains(code));
    }
    ascii
}
