//! Selectors of scopes.
ghost use Rattle.std.specs.Prelude.{◌≡◌, IfOk, option_map};
ghost use Rattle.tm_selector.specs.Syntax.{selector_tokens};
ghost use Rattle.tm_selector.specs.Selector.{alternatives_of, least_side, priority, priority_of};

use crate::names::Scopes;
use crate::syntax::{close, fitting, trim};
use crate::tokens::{Token, tokens_of};
use crate::walk::{Side, ended, walked};
use std::alloc::Global;
use std::marker::Model;
use tm_defs::memory::OutOfMemory;
use tm_defs::texts::{Name, ScopePath};

/// A selector of scopes, as its tokens. It holds no tree, so that none of its calls goes deep, however its groups
/// nest.
#[derive(Drop)]
pub struct Selector {
    tokens: Vec<Token>,
}

impl Model for Selector {
    ghost use Rattle.std.specs.Prelude.{List};
    ghost use Rattle.tm_selector.specs.declared.tokens.Token.{Token};

    ghost Value = { List Token };

    ghost view = { λ a. a.tokens.items };
}

fn number(side: Option<Side>) -> Option<i8>
    ensures { result ≡ option_map priority side }
{
    match side {
        Some(Side::Before) => Some(-1),
        Some(Side::Plain) => Some(0),
        Some(Side::After) => Some(1),
        None => None,
    }
}

/// The least side among the alternatives that match.
fn least_side<S: Scopes>(scopes: &S, tokens: &[Token]) -> Option<Side>
    ensures { result ≡ least_side (alternatives_of tokens.now) (S.names scopes.now) }
{
    if tokens.is_empty() {
        return None;
    }
    ended(walked(scopes, tokens))
}

impl Selector {
    /// Reads a selector. Every text is one: it is cut at its first character that begins no token, and its tokens
    /// at the first that does not fit.
    pub fn parse(alloc: Global, text: &Name) -> Result<Self, OutOfMemory>
        ensures { IfOk result (λ selector. selector ≡ selector_tokens text.now) }
    {
        let mut tokens = tokens_of(alloc, text.as_slice())?;
        tokens.truncate(fitting(tokens.as_slice()));
        trim(&mut tokens);
        close(&mut tokens)?;
        Ok(Selector { tokens })
    }

    /// The least priority among the alternatives that match the path: -1 with `L:`, 1 with `R:`, else 0. None
    /// exactly where no alternative matches. It takes no memory.
    pub fn matches(&self, path: &ScopePath) -> Option<i8>
        ensures { result ≡ priority_of self.now path.now }
    {
        self.matches_scopes(path)
    }

    /// The same of scopes that are lent name by name.
    pub fn matches_scopes<S: Scopes>(&self, scopes: &S) -> Option<i8>
        ensures { result ≡ priority_of self.now (S.names scopes.now) }
    {
        number(least_side(scopes, self.tokens.as_slice()))
    }
}
