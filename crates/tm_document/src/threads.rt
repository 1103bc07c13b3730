//! Documents may cross threads.

use crate::document::Document;
use crate::numbered::NumberedStore;
use tm_defs::tokenizer::LineTok;

fn crosses<T: Send + Sync>() {}

/// A document may cross and be shared between threads where its settings may.
pub fn document_crosses<'a, T: LineTok + Send + Sync + 'a>() {
    crosses::<NumberedStore>();
    crosses::<Document<'a, T>>();
}
