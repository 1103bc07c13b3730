//! What makes metadata beside the theme: the languages that scopes begin, and where brackets are not matched.
ghost use Rattle.std.specs.Prelude.{◌≡◌, option_map};
ghost use Rattle.tm_theme.specs.Rules.{preferred, language_entry, language_of, is_balanced};

use tm_defs::texts::Name;
use tm_selector::names::{Scopes, covers};
use tm_selector::selector::Selector;

/// The languages of scopes, and the selectors of paths on which brackets are not matched.
#[derive(Drop)]
pub struct MetaRules {
    /// Names, as in selectors, with the numbers of languages.
    pub languages: Vec<(Name, u8)>,
    pub unbalanced: Vec<Selector>,
}

/// A language, or one behind it whose name is longer.
fn preferred<'a>(language: &'a (Name, u8), behind: Option<&'a (Name, u8)>) -> &'a (Name, u8)
    ensures { result.now ≡ preferred language.now (option_map (λ b. b.now) behind.entry) }
{
    match behind {
        Some(b) if language.0.as_slice().len() < b.0.as_slice().len() => b,
        _ => language,
    }
}

/// The language with the longest name that matches the scope; of equal names the first.
fn language_entry<'a>(languages: &'a [(Name, u8)], scope: &Name) -> Option<&'a (Name, u8)>
    ensures { option_map (λ l. l.now) result ≡ language_entry languages.now scope.now }
{
    let mut found = None;
    let mut place = languages.len();
    while place > 0 {
        place -= 1;
        let language = &languages[place];
        if covers(language.0.as_slice(), scope.as_slice()) {
            found = Some(preferred(language, found));
        }
    }
    found
}

/// The language that a scope begins.
pub fn language_of(languages: &[(Name, u8)], scope: &Name) -> Option<u8>
    ensures { result ≡ language_of languages.now scope.now }
{
    match language_entry(languages, scope) {
        Some(language) => Some(language.1),
        None => None,
    }
}

/// Whether brackets are matched on a path.
pub fn is_balanced<S: Scopes>(unbalanced: &[Selector], path: &S) -> bool
    ensures { result ≡ is_balanced unbalanced.now (S.names path.now) }
{
    for selector in unbalanced {
        if selector.matches_scopes(path).is_some() {
            return false;
        }
    }
    true
}
