//! What becomes of a batch in a text that was changed since the worker saw it.
//!
//! The machine of births uses an item where its birth stands; here its line is taken through the effects of the later
//! changes. The laws say that both are one, and that a right batch keeps the entries of a text right.
#![tactic(auto)]

pub mod laws;
