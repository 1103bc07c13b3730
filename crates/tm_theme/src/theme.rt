//! Themes, and the metadata of scopes by them.
ghost use Rattle.std.specs.Prelude.{◌≡◌, ◌≤◌, ℕ, List, [], IfOk};
ghost use Rattle.tm_meta.specs.Metadata.{type_bits};
ghost use Rattle.tm_theme.specs.Style.{IsSmall, AreSmall};
ghost use Rattle.tm_theme.specs.Known.{IsKnown};
ghost use Rattle.tm_theme.specs.Theme.{theme_rules, plain_theme, base_parts, pushed, parts_from, metadata_by, word_of};

use crate::buckets::Table;
use crate::rules::{MetaRules, is_balanced, language_of};
use crate::style::{Alternative, Look};
use std::alloc::Global;
use std::marker::Model;
use tm_defs::memory::OutOfMemory;
use tm_defs::texts::{Name, ScopePath};
use tm_meta::fields::{Fields, pack};
use tm_meta::metadata::{TokenType, decided};
use tm_selector::names::Scopes;

/// The look of plain text, and the alternatives of the rules in the order of the file.
#[derive(Drop)]
pub struct Theme {
    base: Look,
    alternatives: Table,
}

impl Model for Theme {
    ghost use Rattle.tm_theme.specs.Theme.{ThemeRules, theme_rules};
    ghost use Rattle.tm_theme.specs.Style.{IsSmall, AreSmall};

    ghost Value = { ThemeRules };

    ghost view = { λ a. theme_rules a.base a.alternatives };

    ghost invariant = { λ a. IsSmall a.base × AreSmall a.alternatives };
}

/// What a scope's metadata is made of, but for its brackets.
#[derive(Clone, Copy, Debug, PartialEq, Eq)]
pub struct Parts {
    pub language: u8,
    pub token_type: TokenType,
    pub look: Look,
}

/// What a theme and the languages say of one name, whatever stands above it: found once for each name, it makes a step
/// short.
#[derive(Drop)]
pub struct KnownScope {
    /// The language that the name begins.
    pub language: Option<u8>,
    /// The token type that the name decides.
    pub token_type: Option<TokenType>,
    /// The alternatives of the theme whose scope matches the name, by their places, the strongest first.
    pub places: Vec<usize>,
}

/// The first scopes of a path.
#[derive(Drop)]
struct Above<'a> {
    names: &'a [Name],
}

impl<'a> Scopes for Above<'a> {
    ghost names = { λ above. above.names.now };

    fn count(&self) -> usize {
        self.names.len()
    }

    fn scope(&self, place: usize) -> Option<&Name> {
        self.names.get(place)
    }
}

fn type_number(token_type: TokenType) -> u8
    ensures is { result ≡ type_bits token_type }
    ensures small { result ≤ 3 }
{
    match token_type {
        TokenType::Other => 0,
        TokenType::Comment => 1,
        TokenType::Text => 2,
        TokenType::Regex => 3,
    }
}

/// The parts of a scope below others, where those of the scope above it are known.
fn pushed<S: Scopes>(
    alternatives: &Table,
    languages: &[(Name, u8)],
    above: &S,
    scope: &Name,
    parts: Parts,
) -> Parts
    ensures { result ≡ pushed alternatives.now languages.now (S.names above.now) scope.now parts }
{
    let (token_type, look) = alternatives.styled(above, scope, parts.token_type, parts.look);
    Parts {
        language: language_of(languages, scope).unwrap_or(parts.language),
        token_type,
        look,
    }
}

/// The parts of a path.
fn parts_of(alternatives: &Table, languages: &[(Name, u8)], path: &[Name], base: Look) -> Parts
    ensures { result ≡ parts_from alternatives.now languages.now [] path.now (base_parts base) }
{
    let mut parts = Parts {
        language: 1,
        token_type: TokenType::Other,
        look: base,
    };
    for (place, scope) in path.iter().enumerate() {
        let above = Above {
            names: &path[..place],
        };
        parts = pushed(alternatives, languages, &above, scope, parts);
    }
    parts
}

/// The metadata word of parts.
pub fn word_of(parts: Parts, balanced: bool) -> u32
    requires { IsSmall parts.look }
    ensures { result ≡ word_of parts balanced }
{
    pack(Fields {
        language: parts.language,
        token_type: type_number(parts.token_type),
        balanced,
        font: parts.look.font as u8,
        foreground: parts.look.foreground,
        background: parts.look.background as u8,
    })
}

impl Theme {
    /// The theme without rules: black on white, with no font style.
    pub fn plain(alloc: Global) -> Result<Theme, OutOfMemory>
        ensures { IfOk result (λ theme. theme ≡ plain_theme) }
    {
        Ok(Theme {
            base: Look {
                font: 0,
                foreground: 1,
                background: 2,
            },
            alternatives: Table::new(alloc, Vec::new(alloc))?,
        })
    }

    /// The theme with this look of plain text and these alternatives of rules, in the order of its file.
    pub fn new(
        alloc: Global,
        base: Look,
        alternatives: Vec<Alternative>,
    ) -> Result<Theme, OutOfMemory>
        requires base { IsSmall base }
        requires alternatives { AreSmall alternatives.items }
        ensures { IfOk result (λ theme. theme ≡ theme_rules base alternatives.items) }
    {
        let alternatives = Table::new(alloc, alternatives)?;
        Ok(Theme { base, alternatives })
    }

    /// The parts of no scope.
    pub fn base(&self) -> Parts
        ensures is { result ≡ base_parts self.now.base }
        ensures small { IsSmall result.look }
    {
        Parts {
            language: 1,
            token_type: TokenType::Other,
            look: self.base,
        }
    }

    /// The parts of a scope below others, where those of the scope above it are known: so a new scope costs one step,
    /// and not its whole path. It takes no memory.
    pub fn pushed<S: Scopes>(
        &self,
        rules: &MetaRules,
        above: &S,
        scope: &Name,
        parts: Parts,
    ) -> Parts
        ensures is { result ≡ pushed self.now.alternatives rules.now.languages.items (S.names above.now) scope.now parts }
        ensures small { IsSmall parts.look → IsSmall result.look }
    {
        pushed(
            &self.alternatives,
            rules.languages.as_slice(),
            above,
            scope,
            parts,
        )
    }

    /// The metadata word of a path. It takes no memory.
    pub fn meta(&self, rules: &MetaRules, path: &ScopePath) -> u32
        ensures { result ≡ metadata_by self.now rules.now.languages.items rules.now.unbalanced.items path.now }
    {
        let parts = parts_of(
            &self.alternatives,
            rules.languages.as_slice(),
            path.as_slice(),
            self.base,
        );
        word_of(parts, is_balanced(rules.unbalanced.as_slice(), path))
    }

    /// What this theme and the languages say of a name.
    pub fn known(
        &self,
        alloc: Global,
        rules: &MetaRules,
        scope: &Name,
    ) -> Result<KnownScope, OutOfMemory>
        ensures { IfOk result (λ known. IsKnown self.now.alternatives rules.now.languages.items scope.now known) }
    {
        let places = self.alternatives.places_of(alloc, scope)?;
        Ok(KnownScope {
            language: language_of(rules.languages.as_slice(), scope),
            token_type: decided(scope.as_slice()),
            places,
        })
    }

    /// The parts of a known name below others, where those of the scope above it are known. It takes no memory.
    pub fn pushed_known<S: Scopes>(&self, known: &KnownScope, above: &S, parts: Parts) -> Parts
        ensures is { (languages : List (List ℕ × ℕ)) (scope : List ℕ) → IsKnown self.now.alternatives languages scope known.now →
            result ≡ pushed self.now.alternatives languages (S.names above.now) scope parts }
        ensures small { (languages : List (List ℕ × ℕ)) (scope : List ℕ) → IsKnown self.now.alternatives languages scope known.now →
            IsSmall parts.look → IsSmall result.look }
    {
        Parts {
            language: known.language.unwrap_or(parts.language),
            token_type: known.token_type.unwrap_or(parts.token_type),
            look: self
                .alternatives
                .styled_by(known.places.as_slice(), above, parts.look),
        }
    }
}
