//! Names of selectors and the scopes that they match, after TextMate's scope selectors.
ghost use Rattle.std.specs.Prelude.{◌≡◌, ℕ, List, length, slice_get, option_map};
ghost use Rattle.tm_selector.specs.Names.{covers, is_covered, place_above};

use tm_defs::texts::{Name, ScopePath};

/// A list of scopes, the outermost first, lent name by name: so that a path which a table keeps by number need
/// not be copied to be matched.
pub trait Scopes {
    /// The scopes.
    ghost names: { Self → List (List ℕ) };

    /// How many there are.
    fn count(&self) -> usize
        ensures { result ≡ length (names self.now) };

    /// The scope at a place, counted from the outermost.
    fn scope(&self, place: usize) -> Option<&Name>
        ensures { option_map (λ name. name.now) result ≡ slice_get (names self.now) place };
}

impl Scopes for ScopePath {
    ghost names = { λ path. path };

    fn count(&self) -> usize {
        self.as_slice().len()
    }

    fn scope(&self, place: usize) -> Option<&Name> {
        self.as_slice().get(place)
    }
}

/// Whether a name matches a scope: it is the scope, or what stands in it before one of its dots.
pub fn covers(name: &[char], scope: &[char]) -> bool
    ensures { result ≡ covers name.now scope.now }
{
    let ends_a_part = match scope.get(name.len()) {
        Some(c) => *c == '.',
        None => true,
    };
    ends_a_part && scope.starts_with(name)
}

fn is_covered<S: Scopes>(scopes: &S, name: &[char], place: usize) -> bool
    ensures { result ≡ is_covered name.now (slice_get (S.names scopes.now) place) }
{
    match scopes.scope(place) {
        Some(scope) => covers(name, scope.as_slice()),
        None => false,
    }
}

/// The nearest place above another at which a scope matches the name. Places count from the outermost scope, so
/// the places above one are those before it.
pub fn place_above<S: Scopes>(scopes: &S, name: &[char], place: usize) -> Option<usize>
    ensures { result ≡ place_above name.now (S.names scopes.now) place }
{
    let mut above = place;
    while above > 0 {
        above -= 1;
        if is_covered(scopes, name, above) {
            return Some(above);
        }
    }
    None
}
