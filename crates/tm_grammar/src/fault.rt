//! Why a file gives no grammar.

use tm_defs::texts::Name;

/// Why a file gives no grammar.
#[derive(Drop)]
pub enum JsonFault {
    /// The bytes are the text of no JSON value. Only then: so also for bytes that are no UTF-8, for
    /// a byte order mark, and for values that nest more than 127 deep.
    NotJson,
    /// The path of the first value that is not what it ought to be, as a JSON Pointer. A value stands
    /// before its parts, items of a list in their order, and members of an object in the order of
    /// their keys' bytes. An absent scope name stands after all others. Only then.
    BadShape(Name),
    OutOfMemory,
}
