//! Bytes of a file as text.
ghost use Rattle.std.specs.Prelude.{◌≡◌, option_map};
ghost use Rattle.tm_forms.specs.Utf8.{text_of_utf8, without_mark};

use std::str;

/// The bytes as text, where they are UTF-8.
pub fn text_of(bytes: &[u8]) -> Option<&str>
    ensures { option_map (λ s. s.now) result ≡ text_of_utf8 bytes.now }
{
    match str::from_utf8(bytes) {
        Ok(text) => Some(text),
        Err(_) => None,
    }
}

/// The bytes without one byte order mark at their start.
pub fn skip_mark(bytes: &[u8]) -> &[u8]
    ensures { result.now ≡ without_mark bytes.now }
{
    if bytes.starts_with(&[0xef, 0xbb, 0xbf]) {
        &bytes[3..]
    } else {
        bytes
    }
}
