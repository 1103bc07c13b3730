//! The numbers of captures.
ghost use Rattle.std.specs.Prelude.{◌≡◌};
ghost use Rattle.tm_grammar.specs.Numbers.{place_number, number_from, key_number, is_digit};

/// Numbers of captures are below this.
const LIMIT: usize = 65536;

/// The place of a list as a capture's number.
pub fn place_number(place: usize) -> Option<u32>
    ensures { result ≡ place_number place }
{
    if place < LIMIT {
        Some(place as u32)
    } else {
        None
    }
}

fn digit(byte: u8) -> bool
    ensures { result ≡ is_digit byte }
{
    b'0' <= byte && byte <= b'9'
}

/// The number that decimal digits spell, where it is that of a capture.
fn number_of(digits: &[u8]) -> Option<u32>
    ensures { result ≡ number_from 0 digits.now }
{
    let mut number: usize = 0;
    for byte in digits {
        if !digit(*byte) {
            return None;
        }
        number = 10 * number + (*byte - b'0') as usize;
        if number >= LIMIT {
            return None;
        }
    }
    place_number(number)
}

/// The number of a key of captures: one or more decimal digits.
pub fn key_number(key: &str) -> Option<u32>
    ensures { result ≡ key_number key.now }
{
    if key.len() == 0 {
        None
    } else {
        number_of(key.as_bytes())
    }
}
