//! What an include names.
ghost use Rattle.std.specs.Prelude.{◌≡◌, ◌<◌, option_map, position, IfSome, length};
ghost use Rattle.tm_rules.specs.Includes.{innermost, loaded_at, is_hash, is_word, named_of, by_hash, included_rule};

use crate::loaded::{Loaded, Repository};

/// Where an include stands: the loaded grammars, and the one in which it is written.
#[derive(Clone, Copy)]
pub struct Home<'a> {
    pub loaded: &'a [Loaded],
    pub grammar: &'a Loaded,
}

const SELF: [char; 5] = ['$', 's', 'e', 'l', 'f'];

const BASE: [char; 5] = ['$', 'b', 'a', 's', 'e'];

/// The rule of a name in repositories, the outermost first.
pub fn innermost(scopes: &[Repository], name: &[char]) -> Option<u32>
    ensures { result ≡ innermost name.now scopes.now }
{
    let mut found = None;
    for i in 0..scopes.len() {
        found = scopes[i].find(name).or(found);
    }
    found
}

/// The first of the grammars that has this scope.
fn loaded_at<'a>(loaded: &'a [Loaded], scope: &[char]) -> Option<&'a Loaded>
    ensures { option_map (λ g. g.now) result ≡ loaded_at scope.now loaded.now }
{
    loaded
        .iter()
        .find(|grammar| scope == grammar.scope.as_slice())
}

/// Whether it is one of the words that stand for a grammar, and so no scope before a `#`.
fn is_word(text: &[char]) -> bool
    ensures { result ≡ is_word text.now }
{
    text == SELF.as_slice() || text == BASE.as_slice()
}

/// The rule of a name in the grammar of a scope, or around the include where the scope is empty.
fn named_of(home: &Home, scopes: &[Repository], scope: &[char], name: &[char]) -> Option<u32>
    ensures { result ≡ named_of home.now.loaded.now scopes.now scope.now name.now }
{
    if scope.is_empty() {
        innermost(scopes, name)
    } else if is_word(scope) {
        None
    } else {
        loaded_at(home.loaded, scope)?.repository.find(name)
    }
}

/// The place of the first `#`.
fn hash_place(text: &[char]) -> Option<usize>
    ensures is { result ≡ position is_hash text.now }
    ensures within { IfSome result (λ place. place < length text.now) }
{
    text.iter().position(|c| *c == '#')
}

/// The root rule of the grammar of this scope.
fn root_of(home: &Home, scope: &[char]) -> Option<u32>
    ensures { result ≡ option_map (λ g. g.root) (loaded_at scope.now home.now.loaded.now) }
{
    Some(loaded_at(home.loaded, scope)?.root)
}

/// What is named by a scope, or a scope and a name.
fn by_hash(home: &Home, scopes: &[Repository], text: &[char]) -> Option<u32>
    ensures { result ≡ by_hash home.now.loaded.now scopes.now text.now (position is_hash text.now) }
{
    match hash_place(text) {
        Some(place) => named_of(home, scopes, &text[..place], &text[place + 1..]),
        None => root_of(home, text),
    }
}

/// The number of the rule that an include names. It is cut at its first `#`.
pub fn included_rule(home: &Home, scopes: &[Repository], text: &[char]) -> Option<u32>
    ensures { result ≡ included_rule home.now.loaded.now home.now.grammar.now scopes.now text.now }
{
    if text == SELF.as_slice() {
        Some(home.grammar.root)
    } else if text == BASE.as_slice() {
        Some(0)
    } else {
        by_hash(home, scopes, text)
    }
}
