//! The types that threads share or hand to one another.

use crate::fault::ThemeFault;
use crate::rules::MetaRules;
use crate::style::{Alternative, Look, Style};
use crate::theme::{Parts, Theme};

fn crosses<T: Send + Sync>() {}

/// Themes, what is beside them, and what they are made of may cross and be shared between threads.
pub fn themes_cross() {
    crosses::<Theme>();
    crosses::<ThemeFault>();
    crosses::<MetaRules>();
    crosses::<Alternative>();
    crosses::<Style>();
    crosses::<Look>();
    crosses::<Parts>();
}
