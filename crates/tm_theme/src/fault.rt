//! Why a file gives no theme.

use tm_defs::texts::Name;

/// Why a file gives no theme.
#[derive(Drop)]
pub enum ThemeFault {
    /// The bytes are the text of no JSON value. Only then: so also for bytes that are no UTF-8, for a byte order mark,
    /// and for values that nest more than 127 deep.
    NotJson,
    /// The path of the first value that is not what it ought to be, as a JSON Pointer: a value stands before its parts,
    /// items of a list in their order, and members of an object in the order of their keys' bytes.
    BadShape(Name),
    /// The path of the first text that is no colour, where no wrong value stands before it.
    BadColour(Name),
    /// A foreground would have a number beyond 511, or a background one beyond 255. Only where all values and colours
    /// are right.
    TooManyColours,
    OutOfMemory,
}
