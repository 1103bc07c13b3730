//! What is painted of a line, and the tokens that come of it.
//!
//! A tokenizer paints a line piece by piece: scopes, from the last painted end up to a new one. A piece that ends at or
//! before the last painted end paints nothing, so what is painted first stays. Take four pieces over the line `abcd` and
//! its line break, where the metadata of a piece is one letter:
//!
//! | Piece | Paints | Painted so far |
//! |---|---|---|
//! | up to 3, `x` | 0 to 3 | `xxx` |
//! | up to 1, `y` | nothing | `xxx` |
//! | up to 4, `x` | 3 to 4 | `xxxx` |
//! | up to 5, `z` | the line break | `xxxxz` |
//!
//! The tokens of the line are the maximal runs of equal metadata over its own characters: one, from 0 on, with `x`.
#![tactic(auto)]

ghost use Rattle.std.specs.Prelude.{◌≡◌, ◌∷◌, [], ℕ, List};
ghost use Rattle.tm_paint.specs.Example.{mark, token};
ghost use Rattle.tm_paint.specs.Painted.{Piece, meta_at, runs_of};
ghost use Rattle.tm_paint.specs.declared.painter.Painted.{Painted};
ghost use Rattle.tm_paint.specs.Painting.{AreOfScopes};

pub mod painter;
mod threads;

/// The tokens of a painter are those of the scopes at each place.
pub fn tokens_are_of_scopes()
    ensures { (meta : List (List ℕ) → ℕ) (pieces : List Painted) (plain : List Piece) → AreOfScopes meta pieces plain }
{}

/// The line at the head of this module, computed by the definitions; the same pieces over two characters; over none,
/// with the metadata 9 behind the line; and two runs.
pub fn worked_pieces()
    ensures whole { runs_of (meta_at (mark 3 1 ∷ mark 1 2 ∷ mark 4 1 ∷ mark 5 3 ∷ [])) 9 4 ≡ token 0 1 ∷ [] }
    ensures front { runs_of (meta_at (mark 3 1 ∷ mark 1 2 ∷ mark 4 1 ∷ mark 5 3 ∷ [])) 9 2 ≡ token 0 1 ∷ [] }
    ensures empty { runs_of (meta_at (mark 3 1 ∷ mark 1 2 ∷ mark 4 1 ∷ mark 5 3 ∷ [])) 9 0 ≡ token 0 9 ∷ [] }
    ensures two { runs_of (meta_at (mark 3 1 ∷ mark 4 2 ∷ mark 6 2 ∷ mark 7 1 ∷ [])) 9 7 ≡ token 0 1 ∷ token 3 2 ∷ token 6 1 ∷ [] }
{}
