//! What is kept of one line.

use tm_defs::tokens::Tokens;

/// What is kept of a line: its tokens and the state after it, whether they are those of the state
/// before it as it is kept now (`good`), and whether the line cost more than its budget
/// (`blocked`). `S` is a state, or the number of one.
#[derive(Drop)]
pub struct Entry<S> {
    pub tokens: Option<Tokens>,
    pub end: Option<S>,
    pub good: bool,
    pub blocked: bool,
}
