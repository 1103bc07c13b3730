//! Names of sets in classes, between `[:` and `:]`.
ghost use Rattle.std.specs.Prelude.{◌≡◌, bytes_eq, option_map};
ghost use Rattle.tm_onig_atom.specs.Classes.{class_name};
ghost use Rattle.tm_onig_atom.specs.inner.ClassReading.{posix_name, posix_at};

use crate::meanings::Named;
use crate::slices::before;
use tm_onig_class::listed::Listed;
use tm_onig_class::names::Known;

const CLASS_SETS: [Listed; 14] = [
    Listed::Word,
    Listed::Digit,
    Listed::Space,
    Listed::Xdigit,
    Listed::Alpha,
    Listed::Alnum,
    Listed::Blank,
    Listed::Cntrl,
    Listed::Lower,
    Listed::Upper,
    Listed::Punct,
    Listed::Graph,
    Listed::Print,
    Listed::Ascii,
];

/// Whether the name is the word, which is of ASCII.
fn is_word(word: &[u8], name: &[char]) -> bool
    ensures { result ≡ bytes_eq word.now name.now }
{
    if word.len() != name.len() {
        return false;
    }
    'chars: for i in 0..word.len() {
        if u32::from(word[i]) != name[i] as u32 {
            return false;
        }
    }
    true
}

/// The set with a name, exactly as it is written.
fn class_name(name: &[char]) -> Option<Listed>
    ensures { result ≡ class_name name.now }
{
    'names: for i in 0..CLASS_SETS.len() {
        let listed = CLASS_SETS[i];
        if is_word(listed.name(), name) {
            return Some(listed);
        }
    }
    None
}

/// A name up to its `:]`, and what follows.
fn name(negated: bool, text: &[char]) -> Option<(Named, &[char])>
    ensures { option_map (λ x. (x.0, x.1.now)) result ≡ posix_name negated text.now }
{
    let Some((name, rest)) = before(':', text) else {
        return None;
    };
    match rest {
        [']', after @ ..] => match class_name(name) {
            Some(listed) => {
                let known = Known::Listed(listed);
                Some((Named { known, negated }, after))
            }
            None => None,
        },
        _ => None,
    }
}

/// The set that is named directly behind a `[`, and what follows.
#[tactic(auto, unfolding(crate::specs::inner::ClassReading::posix_at))]
pub(crate) fn posix(text: &[char]) -> Option<(Named, &[char])>
    ensures { option_map (λ x. (x.0, x.1.now)) result ≡ posix_at text.now }
{
    match text {
        [':', '^', rest @ ..] => name(true, rest),
        [':', rest @ ..] => name(false, rest),
        _ => None,
    }
}
