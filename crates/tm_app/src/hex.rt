//! Numbers in hexadecimal.
ghost use Rattle.std.specs.Prelude.{◌≡◌, ◌≤◌, ◌<◌, ◌++◌, ◌∷◌, [], ◌/◌, ◌%◌, IfOk, string_bytes};
ghost use Rattle.std.specs.Char.{digit_char};
ghost use Rattle.tm_app.specs.Hex.{eight_digits};

use std::alloc::Global;
use tm_defs::memory::OutOfMemory;

fn digit(d: u32) -> char
    requires { d < 16 }
    ensures value { result ≡ digit_char d }
    ensures ascii { result < 128 }
{
    match d {
        0..=9 => (b'0' + d as u8) as char,
        _ => (b'a' + (d as u8 - 10)) as char,
    }
}

/// Eight lower-case digits, the most significant first.
pub fn eight(alloc: Global, n: u32) -> Result<String, OutOfMemory>
    ensures { IfOk result (λ text. string_bytes text ≡ eight_digits n) }
{
    let mut text = String::new(alloc);
    text.push(digit(n / 0x1000_0000 % 16))?;
    text.push(digit(n / 0x100_0000 % 16))?;
    text.push(digit(n / 0x10_0000 % 16))?;
    text.push(digit(n / 0x1_0000 % 16))?;
    text.push(digit(n / 0x1000 % 16))?;
    text.push(digit(n / 0x100 % 16))?;
    text.push(digit(n / 0x10 % 16))?;
    text.push(digit(n % 16))?;
    Ok(text)
}
