//! The text file. Each byte of it is a character; later forms read UTF-8.
ghost use Rattle.std.specs.Prelude.{◌≡◌, ◌≤◌, ◌&&◌, length, nat_le, ok_or, IfOk};
ghost use Rattle.std.specs.List.{list_all};
ghost use Rattle.tm_forms.specs.Text.{text_in, is_text_character, greatest_length};
ghost use Rattle.tm_forms.specs.Utf8.{without_mark};

use crate::form::{Form, Refusal};
use crate::utf8;
use std::alloc::Global;
use std::marker::Model;
use tm_defs::memory::OutOfMemory;

/// The characters of a text, line breaks included.
#[derive(Drop)]
pub struct TextFile {
    chars: Vec<char>,
}

impl Model for TextFile {
    ghost use Rattle.std.specs.Prelude.{List, ℕ, ◌≤◌, length};
    ghost use Rattle.tm_forms.specs.Text.{greatest_length};

    ghost Value = { List ℕ };

    ghost view = { λ a. a.chars.items };

    ghost invariant = { λ a. length a.chars.items ≤ greatest_length };
}

impl TextFile {
    /// The characters in order.
    pub fn as_slice(&self) -> &[char]
        ensures value { result.now ≡ self.now }
        ensures short { length result.now ≤ greatest_length }
    {
        self.chars.as_slice()
    }
}

fn text_byte(byte: u8) -> bool
    ensures { result ≡ is_text_character byte }
{
    byte == b'\t' || byte == b'\n' || (b' ' <= byte && byte <= b'~')
}

/// Whether each byte may stand in a text file.
pub(crate) fn all_text(bytes: &[u8]) -> bool
    ensures { result ≡ list_all is_text_character bytes.now }
{
    bytes.iter().all(|byte| text_byte(*byte))
}

/// Whether a file of so many bytes may be a text or a script.
pub(crate) fn short(length: usize) -> bool
    ensures { result ≡ nat_le length greatest_length }
{
    length <= 1_000_000
}

/// Each byte as a character.
pub(crate) fn chars_of(alloc: Global, bytes: &[u8]) -> Result<Vec<char>, OutOfMemory>
    ensures { IfOk result (λ chars. chars.items ≡ bytes.now) }
{
    let mut chars = Vec::new(alloc);
    for byte in bytes {
        chars.push(*byte as char)?;
    }
    Ok(chars)
}

impl Form for TextFile {
    ghost use Rattle.std.specs.Prelude.{List, ℕ, ok_or};
    ghost use Rattle.tm_forms.specs.declared.form.Refusal.TheVariants.{NotYet};

    ghost Plain = { List ℕ };

    ghost plain = { λ text. text };

    ghost form = { λ bytes. ok_or (text_in bytes) NotYet };

    fn read(alloc: Global, bytes: &[u8]) -> Result<Result<Self, Refusal>, OutOfMemory> {
        let text = utf8::skip_mark(bytes);
        if !short(bytes.len()) {
            return Ok(Err(Refusal::NotYet));
        }
        if !all_text(text) {
            return Ok(Err(Refusal::NotYet));
        }
        let chars = chars_of(alloc, text)?;
        Ok(Ok(TextFile { chars }))
    }
}
