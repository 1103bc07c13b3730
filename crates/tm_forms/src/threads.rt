//! What is read of files may cross and be shared between threads.

use crate::form::Refusal;
use crate::script::Script;
use crate::settings::Settings;
use crate::text::TextFile;

fn crosses<T: Send + Sync>() {}

/// What each form reads, and why a file is refused, may cross and be shared between threads.
pub fn forms_cross() {
    crosses::<Settings>();
    crosses::<TextFile>();
    crosses::<Script>();
    crosses::<Refusal>();
}
