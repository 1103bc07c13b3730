//! The 32-bit metadata of scopes.
//!
//! A token of the service is a start and one word that says its language, token type, font style and
//! colours, as vscode-textmate packs them. Here is the word of a scope list, computed when a piece of a
//! line is painted, so that nothing beside the table grows with it.
//!
//! ```text
//! source.t                     02008401   other
//! source.t comment.line.t      02008501   a comment
//! source.t comment.t string.t  02008601   the innermost scope that decides: a string
//! ```
#![tactic(auto)]

ghost use Rattle.std.specs.Prelude.{◌≡◌, ◌∷◌, [], ℕ, List, codes};
ghost use Rattle.tm_meta.specs.Leftmost.{IsLeftmost};
ghost use Rattle.tm_meta.specs.Metadata.{metadata_of};

pub mod fields;
pub mod metadata;
mod threads;

/// The leftmost word decides a scope's token type.
pub fn leftmost_word()
    ensures { (scope : List ℕ) → IsLeftmost scope }
{}

/// The scope lists at the head of this module, computed by the definition.
pub fn worked_words()
    ensures plain { metadata_of (codes "source.t" ∷ []) ≡ 0x0200_8401 }
    ensures comment { metadata_of (codes "source.t" ∷ codes "comment.line.t" ∷ []) ≡ 0x0200_8501 }
    ensures innermost { metadata_of (codes "source.t" ∷ codes "comment.t" ∷ codes "string.t" ∷ []) ≡ 0x0200_8601 }
{}
