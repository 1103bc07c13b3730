//! Laws of the definitions. Each function does nothing but say one.
ghost use Rattle.std.specs.Prelude.{◌≡◌, ◌⊎◌, ℕ, List, []};
ghost use Rattle.tm_selector.specs.Grammar.{IsSelector, IsLongest};
ghost use Rattle.tm_selector.specs.Names.{is_path_of, in_order};
ghost use Rattle.tm_selector.specs.Syntax.{closed, fitting, kept, trimmed};
ghost use Rattle.tm_selector.specs.declared.syntax.Behind.TheVariants.{Start};
ghost use Rattle.tm_selector.specs.declared.tokens.Token.{Token};

/// A path matches exactly where its names match some of the scopes in order.
pub fn prove_paths_match_in_order()
    ensures { (names scopes : List (List ℕ)) → is_path_of names scopes ≡ in_order names scopes }
{}

/// The tokens that are kept are the longest beginning of all with which some selector of the grammar begins.
pub fn prove_the_longest_beginning_is_kept()
    ensures { (tokens : List Token) → IsLongest tokens (fitting Start 0 tokens) }
{}

/// What a selector is read as is a selector of the grammar, or nothing; and a selector is read as it stands.
pub fn prove_what_is_read_is_a_selector()
    ensures whole { (tokens : List Token) → (closed (trimmed (kept tokens)) ≡ []) ⊎ IsSelector (closed (trimmed (kept tokens))) }
    ensures same { (tokens : List Token) → IsSelector tokens → closed (trimmed (kept tokens)) ≡ tokens }
{}
