//! What rules say of the groups of a match.

use tm_defs::texts::{Name, ScopePath};

/// The names of a group: the same at every match, or a text into which goes what the match captured.
#[derive(Drop)]
pub enum GroupName {
    Fixed(ScopePath),
    Filled(Name),
}

/// What a rule says of a group, 0 for the whole match: its names, the names of what is inside it, which count only
/// where it is tokenized again, and the number of the rule by which it is.
#[derive(Drop)]
pub struct GroupRule {
    pub group: u32,
    pub name: Option<GroupName>,
    pub content_name: Option<GroupName>,
    pub rule: Option<u32>,
}
