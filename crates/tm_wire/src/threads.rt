//! The two ends go to two threads.

use crate::ends::{BackEnd, FrontEnd};
use crate::making::Counts;
use tm_defs::tokenizer::LineTok;

fn goes<T: Send>() {}

/// Each end may go to another thread where the settings may be shared.
pub fn ends_go<T: LineTok + Sync>() {
    goes::<FrontEnd<T>>();
    goes::<BackEnd<T>>();
    goes::<Counts>();
}
