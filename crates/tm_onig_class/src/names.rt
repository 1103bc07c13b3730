//! The set that a name stands for.
ghost use Rattle.std.specs.Prelude.{◌≡◌, ◌↔◌, ℕ, Option, IfOk, OnOk, ◌<◌, true, false, MatchOption, ◌++◌, filter_map, [], ◌∷◌};
ghost use Rattle.std.specs.List.{list_all};
ghost use Rattle.std.specs.Char.{is_ascii};
ghost use Rattle.ucd_sets.specs.Loose.{loosely, value_named};
ghost use Rattle.ucd_sets.specs.Names.{category_names, script_names};
ghost use Rattle.tm_onig_class.specs.Members.{has_char, IsChar};
ghost use Rattle.tm_onig_class.specs.Named.{listed_names, is_no_category, is_short_script, is_one_of, long_scripts_of_four, category_named, script_named, known_plain, plain, known, in_known, SameOption};

use crate::listed::Listed;
use crate::sets::Set;
use std::alloc::Global;
use tm_defs::memory::OutOfMemory;
use tm_defs::texts::Name;
use ucd_sets as kit;

const LISTED: [Listed; 15] = [
    Listed::Word,
    Listed::Digit,
    Listed::Space,
    Listed::Xdigit,
    Listed::Alpha,
    Listed::Alnum,
    Listed::Blank,
    Listed::Cntrl,
    Listed::Lower,
    Listed::Upper,
    Listed::Punct,
    Listed::Graph,
    Listed::Print,
    Listed::Ascii,
    Listed::Any,
];

/// A set that has a name.
#[derive(Clone, Copy, Debug, PartialEq, Eq)]
pub enum Known {
    Listed(Listed),
    Kit(kit::Set),
}

fn listed_by_name(name: &[u8]) -> Option<Listed>
    ensures { result ≡ value_named listed_names name.now }
{
    'names: for i in 0..LISTED.len() {
        let listed = LISTED[i];
        if listed.name() == name {
            return Some(listed);
        }
    }
    None
}

fn no_category(name: &[u8]) -> bool
    ensures { result ≡ is_no_category name.now }
{
    b"assigned".as_slice() == name || b"combiningmark".as_slice() == name
}

fn short_script(name: &[u8]) -> bool
    ensures { result ≡ is_short_script name.now }
{
    name.len() == 4 && !long_of_four(name)
}

fn long_of_four(name: &[u8]) -> bool
    ensures { result ≡ is_one_of long_scripts_of_four name.now }
{
    b"ahom".as_slice() == name
        || b"cham".as_slice() == name
        || b"kawi".as_slice() == name
        || b"lisu".as_slice() == name
        || b"miao".as_slice() == name
        || b"modi".as_slice() == name
        || b"newa".as_slice() == name
        || b"seal".as_slice() == name
        || b"thai".as_slice() == name
        || b"toto".as_slice() == name
}

/// The set with a name in its plain form.
fn known_plain(name: &[u8]) -> Option<Known>
    ensures { result ≡ known_plain name.now }
{
    if let Some(listed) = listed_by_name(name) {
        return Some(Known::Listed(listed));
    }
    if let Some(set) = category(name) {
        return Some(Known::Kit(set));
    }
    match script(name) {
        Some(set) => Some(Known::Kit(set)),
        None => None,
    }
}

fn category(name: &[u8]) -> Option<kit::Set>
    ensures { result ≡ category_named name.now }
{
    if no_category(name) {
        return None;
    }
    match kit::by_value(b"gc", name) {
        Ok(set) => Some(set),
        Err(_) => None,
    }
}

fn script(name: &[u8]) -> Option<kit::Set>
    ensures { result ≡ script_named name.now }
{
    if short_script(name) {
        return None;
    }
    match kit::by_value(b"sc", name) {
        Ok(set) => Some(set),
        Err(_) => None,
    }
}

/// What stays of a character of a name.
fn plain(c: char) -> Option<u8>
    requires { c < 128 }
    ensures { result ≡ plain c }
{
    if matches!(c, ' ' | '_' | '-') {
        return None;
    }
    Some((c as u8).to_ascii_lowercase())
}

fn push_plain(out: &mut Vec<u8>, c: char) -> Result<(), OutOfMemory>
    requires { c < 128 }
    ensures { OnOk result (out.new.items ≡ out.old.items ++ filter_map plain (c ∷ [])) }
{
    if let Some(byte) = plain(c) {
        out.push(byte)?;
    }
    Ok(())
}

/// The name in its plain form, where it is of ASCII alone.
fn plain_name(alloc: Global, name: &[char]) -> Result<Option<Vec<u8>>, OutOfMemory>
    ensures some { IfOk result (λ made. MatchOption made (list_all is_ascii name.now ≡ false) (λ v. (list_all is_ascii name.now ≡ true) × (v.items ≡ filter_map plain name.now))) }
{
    let mut out = Vec::new(alloc);
    'chars: for index in 0..name.len() {
        if name[index] as u32 >= 128 {
            return Ok(None);
        }
        push_plain(&mut out, name[index])?;
    }
    Ok(Some(out))
}

impl Known {
    /// The set with a name.
    pub fn named(alloc: Global, name: &[char]) -> Result<Option<Known>, OutOfMemory>
        ensures { IfOk result (λ found. found ≡ known name.now) }
    {
        match plain_name(alloc, name)? {
            Some(plain) => Ok(known_plain(&plain)),
            None => Ok(None),
        }
    }

    /// Its members.
    pub fn set(self, alloc: Global) -> Result<Set, OutOfMemory>
        ensures { IfOk result (λ s. (c : ℕ) → IsChar c → has_char s c ≡ in_known self c) }
    {
        match self {
            Known::Listed(listed) => Set::listed(alloc, listed),
            Known::Kit(set) => Set::of_kit(alloc, set),
        }
    }
}

impl Set {
    /// The set of a name, as `\p{NAME}` reads it. `None` comes exactly where no set has the name.
    pub fn named(alloc: Global, name: &Name) -> Result<Option<Set>, OutOfMemory>
        ensures { IfOk result (λ found. SameOption found (known name.now)) }
    {
        match Known::named(alloc, name.as_slice())? {
            Some(found) => Ok(Some(found.set(alloc)?)),
            None => Ok(None),
        }
    }
}
