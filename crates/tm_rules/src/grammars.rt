//! The grammars of a setting, and why they give no rules.

use tm_grammar::grammar::RawGrammar;

/// The grammars that a setting loads. An include of a scope means the first of them that has it: the
/// root grammar first, then `more`, then `injected`.
#[derive(Drop)]
pub struct Grammars {
    pub root: RawGrammar,
    pub more: Vec<RawGrammar>,
    pub injected: Vec<RawGrammar>,
}

/// Why grammars give no rules.
#[derive(Clone, Copy, Debug, PartialEq, Eq)]
pub enum RulesFault {
    /// There are more than 65,535 rules. Only then.
    TooManyRules,
    OutOfMemory,
}
