//! The types that a foreground and a background worker hand to one another or share.

use crate::numbered::NumberedSet;
use crate::scopes::{NameLink, ScopeTable};
use tm_defs::texts::Name;

fn crosses<T: Send + Sync>() {}

/// Numbered values and scope tables may cross and be shared between threads.
pub fn tables_cross() {
    crosses::<NumberedSet<Name>>();
    crosses::<NumberedSet<NameLink>>();
    crosses::<NameLink>();
    crosses::<ScopeTable>();
}
