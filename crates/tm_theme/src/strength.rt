//! Which of two lists of words is the weaker, and which match above a scope.
ghost use Rattle.std.specs.Prelude.{◌≡◌, ◌≤◌, length, Some};
ghost use Rattle.tm_theme.specs.Style.{dots, is_weaker, climb};

use tm_defs::texts::Name;
use tm_selector::names::{Scopes, place_above};

/// The dots of a word.
fn dots(word: &[char]) -> usize
    ensures is { result ≡ dots word.now }
    ensures within { result ≤ length word.now }
{
    let mut count = 0;
    let mut place = word.len();
    while place > 0 {
        place -= 1;
        if word[place] == '.' {
            count += 1;
        }
    }
    count
}

/// Whether the first words are the weaker ones.
pub fn is_weaker(words: &[Name], others: &[Name]) -> bool
    ensures { result ≡ is_weaker words.now others.now }
{
    let mut place = 0;
    while place < words.len() && place < others.len() {
        let mine = dots(words[place].as_slice());
        let other = dots(others[place].as_slice());
        if mine != other {
            return mine < other;
        }
        place += 1;
    }
    words.len() < others.len()
}

/// Whether the words match scopes above the place.
pub fn climb<S: Scopes>(above: &S, words: &[Name]) -> bool
    ensures { result ≡ climb words.now (S.names above.now) (Some (length (S.names above.now))) }
{
    let mut place = above.count();
    for word in words {
        match place_above(above, word.as_slice(), place) {
            Some(higher) => place = higher,
            None => return false,
        }
    }
    true
}
