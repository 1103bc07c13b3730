//! What is searched for in a line.

/// One pattern of a list of candidates.
#[derive(Clone, Copy, Debug, PartialEq, Eq)]
pub enum Candidate {
    /// The `match` or `begin` of the rule with this number.
    Start(u32),
    /// The `end` of the rule whose candidates these are.
    End,
}
