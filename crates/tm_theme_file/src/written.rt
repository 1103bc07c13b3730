//! Colours, fonts and scopes as a theme's file writes them, in the bytes of UTF-8.
ghost use Rattle.std.specs.Prelude.{◌≡◌, ◌≤◌, ◌++◌, [], length, IfOk};
ghost use Rattle.std.specs.List.{list_all};
ghost use Rattle.std.specs.Char.{is_ascii_hexdigit};
ghost use Rattle.tm_theme_file.specs.Written.{is_digit_count, is_colour, upper, is_blank, is_space_at, stands_at, has_word, bit, font_of, is_name_character, with_word, alternative, alternatives_from};

use std::alloc::Global;
use tm_defs::memory::OutOfMemory;
use tm_defs::texts::{Name, ScopePath};

fn is_digit_count(count: usize) -> bool
    ensures { result ≡ is_digit_count count }
{
    count == 3 || count == 4 || count == 6 || count == 8
}

fn are_digits(digits: &[u8]) -> bool
    ensures { result ≡ list_all is_ascii_hexdigit digits.now }
{
    digits.iter().all(|c| c.is_ascii_hexdigit())
}

/// Whether a text is `#` and 3, 4, 6 or 8 hexadecimal digits.
pub fn is_colour(text: &[u8]) -> bool
    ensures { result ≡ is_colour text.now }
{
    match text {
        [b'#', digits @ ..] => { is_digit_count(digits.len()) && are_digits(digits) }
        _ => false,
    }
}

/// A colour in upper case.
pub fn upper(alloc: Global, text: &[u8]) -> Result<Name, OutOfMemory>
    ensures { IfOk result (λ name. name ≡ upper text.now) }
{
    let mut chars = Vec::new(alloc);
    for byte in text {
        chars.push(byte.to_ascii_uppercase() as char)?;
    }
    Ok(Name::new(chars))
}

/// Whether a text is spaces alone.
pub fn is_blank(text: &[u8]) -> bool
    ensures { result ≡ is_blank text.now }
{
    text.iter().all(|c| *c == b' ')
}

fn is_space_at(text: &[u8], place: usize) -> bool
    ensures { result ≡ is_space_at text.now place }
{
    match text.get(place) {
        Some(c) => *c == b' ',
        None => true,
    }
}

/// Whether a word stands at a place of a text, with spaces or the text's ends around it.
fn stands_at(word: &[u8], text: &[u8], place: usize) -> bool
    requires { place ≤ length text.now }
    ensures { result ≡ stands_at word.now text.now place }
{
    if place != 0 && !is_space_at(text, place - 1) {
        return false;
    }
    text[place..].starts_with(word) && is_space_at(text, place + word.len())
}

/// Whether a word of a text is this one.
fn has_word(word: &[u8], text: &[u8]) -> bool
    ensures { result ≡ has_word word.now text.now }
{
    let mut place = text.len();
    while place > 0 {
        place -= 1;
        if stands_at(word, text, place) {
            return true;
        }
    }
    false
}

fn bit(set: bool, value: u16) -> u16
    ensures { result ≡ bit set value }
{
    if set { value } else { 0 }
}

/// The font of a text of words.
pub fn font_of(text: &[u8]) -> u16
    ensures is { result ≡ font_of text.now }
    ensures small { result ≤ 15 }
{
    bit(has_word(b"italic", text), 1)
        + bit(has_word(b"bold", text), 2)
        + bit(has_word(b"underline", text), 4)
        + bit(has_word(b"strikethrough", text), 8)
}

fn is_name_character(c: char) -> bool
    ensures { result ≡ is_name_character c }
{
    c.is_ascii_alphanumeric() || c == '_' || c == '.' || c == ':' || c == '-'
}

/// Whether all characters are those of names.
fn is_word(word: &[char]) -> bool
    ensures { result ≡ list_all is_name_character word.now }
{
    word.iter().all(|c| is_name_character(*c))
}

fn are_words(words: &[Name]) -> bool
    ensures { result ≡ list_all (list_all is_name_character) words.now }
{
    words.iter().all(|word| is_word(word.as_slice()))
}

/// Puts a word before those of its alternative, where it has characters.
fn end_word(word: Vec<char>, words: &mut Vec<Name>) -> Result<(), OutOfMemory>
    ensures { IfOk result (λ _. words.new.items ≡ with_word word.items words.old.items) }
{
    if word.is_empty() {
        return Ok(());
    }
    words.insert(0, Name::new(word))?;
    Ok(())
}

/// Adds an alternative, where it may match.
fn end_alternative(words: Vec<Name>, done: &mut Vec<ScopePath>) -> Result<(), OutOfMemory>
    ensures { IfOk result (λ _. done.new.items ≡ done.old.items ++ alternative words.items) }
{
    if words.is_empty() || !are_words(words.as_slice()) {
        return Ok(());
    }
    done.push(ScopePath::new(words))?;
    Ok(())
}

/// Adds the alternatives of a scope's text.
pub fn add_alternatives(
    alloc: Global,
    text: &[u8],
    done: &mut Vec<ScopePath>,
) -> Result<(), OutOfMemory>
    ensures { IfOk result (λ _. done.new.items ≡ alternatives_from [] [] done.old.items text.now) }
{
    let mut word = Vec::new(alloc);
    let mut words = Vec::new(alloc);
    for byte in text {
        match *byte {
            b',' => {
                end_word(word, &mut words)?;
                end_alternative(words, done)?;
                word = Vec::new(alloc);
                words = Vec::new(alloc);
            }
            b' ' => {
                end_word(word, &mut words)?;
                word = Vec::new(alloc);
            }
            c => word.push(c as char)?,
        }
    }
    end_word(word, &mut words)?;
    end_alternative(words, done)
}
