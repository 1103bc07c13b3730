//! What the groups of a match captured.
ghost use Rattle.std.specs.Prelude.{◌≡◌, ◌<◌, ◌≤◌, length, true};
ghost use Rattle.std.specs.List.{list_all};
ghost use Rattle.std.specs.Char.{is_ascii_digit, digit_value};
ghost use Rattle.tm_template.specs.Captured.{captured, group_of};

fn value_of(digit: char) -> usize
    requires { is_ascii_digit digit ≡ true }
    ensures value { result ≡ digit_value digit }
    ensures decimal { result < 10 }
{
    digit as usize - '0' as usize
}

/// The group with a number in decimal digits, however great: none where the pattern has no such group.
pub(crate) fn group_of(groups: &[Option<(u32, u32)>], digits: &[char]) -> Option<Option<(u32, u32)>>
    requires { list_all is_ascii_digit digits.now ≡ true }
    ensures { result ≡ group_of groups.now digits.now }
{
    let mut number = 0;
    'digits: for i in 0..digits.len() {
        number = 10 * number + value_of(digits[i]);
        if number >= groups.len() {
            return None;
        }
    }
    if number < groups.len() {
        Some(groups[number])
    } else {
        None
    }
}

/// The characters of a line from the start of a group to its end.
pub(crate) fn captured(line: &[char], span: (u32, u32)) -> &[char]
    requires order { span.0 ≤ span.1 }
    requires within { span.1 ≤ length line.now }
    ensures { result.now ≡ captured line.now span }
{
    &line[span.0 as usize..span.1 as usize]
}
