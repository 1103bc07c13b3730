//! What a kind of file has in common with the others: a meaning of its bytes, and a reader.
ghost use Rattle.std.specs.Prelude.{◌≡◌, ℕ, List, Result, IfOk};
ghost use Rattle.tm_forms.specs.Refusals.{ok_map};

use std::alloc::Global;
use tm_defs::memory::OutOfMemory;
use tm_defs::texts::Name;

/// Why a file is refused.
#[derive(Drop)]
pub enum Refusal {
    /// The bytes are the text of no JSON value: so also for bytes that are no UTF-8, and for values that
    /// nest more than 127 deep. Only of settings and grammars.
    NotJson,
    /// The path of the first wrong value, as a JSON Pointer (RFC 6901); the whole value's is empty. A value
    /// stands before its parts, items of a list in their order, and members of an object in the order of
    /// their keys' bytes. A key that has to be there and is absent stands after all others. Only of settings
    /// and grammars.
    BadShape(Name),
    /// The file is of a form that is not built yet.
    NotYet,
}

/// What a file of a kind holds.
pub trait Form: Sized {
    ghost use Rattle.std.specs.Prelude.{List, ℕ, Result};
    ghost use Rattle.tm_forms.specs.declared.form.Refusal.{Refusal};

    /// What a file of the kind says, as plain data.
    ghost Plain: { Type 0 };

    ghost plain: { Self → Plain };

    /// What the bytes of a file say, or why they are refused.
    ghost form: { List ℕ → Result Plain Refusal };

    /// Reads the bytes of a whole file.
    fn read(alloc: Global, bytes: &[u8]) -> Result<Result<Self, Refusal>, OutOfMemory>
        ensures { IfOk result (λ found. ok_map plain found ≡ form bytes.now) };
}
