//! Painted pieces of a line, and its tokens: one pass over the pieces, and one token for each run of
//! equal metadata.
ghost use Rattle.std.specs.Prelude.{◌≡◌, ◌++◌, ◌<◌, ◌≤◌, ◌^◌, IfOk};
ghost use Rattle.tm_paint.specs.Painted.{runs_of, starts, is_same};
ghost use Rattle.tm_line_turns.specs.Painted.{meta_at, furthest};

use std::alloc::Global;
use tm_defs::memory::OutOfMemory;
use tm_defs::tokens::{Token, Tokens};

/// What is painted from the last painted end on: `end` counts characters, `meta` is the 32-bit
/// metadata of vscode-textmate.
#[derive(Clone, Copy, Debug, PartialEq, Eq)]
pub struct Painted {
    pub end: usize,
    pub meta: u32,
}

/// The tokens of a line of `len` characters, without its line break. `end_meta` is the metadata of
/// the state behind the line, which an empty line shows.
pub fn tokens_of(
    alloc: Global,
    pieces: &[Painted],
    len: usize,
    end_meta: u32,
) -> Result<Tokens, OutOfMemory>
    requires reach { len ≤ furthest pieces.now }
    requires short { len < 2 ^ 31 }
    ensures { IfOk result (λ tokens. tokens ≡ runs_of (meta_at pieces.now) end_meta len) }
{
    let mut tokens = Vec::new(alloc);
    if len == 0 {
        tokens.push(Token {
            start: 0,
            meta: end_meta,
        })?;
        return Ok(Tokens::new(tokens));
    }
    let mut painted = 0;
    let mut last = None;
    for piece in pieces {
        if piece.end <= painted {
            continue;
        }
        if len <= painted {
            continue;
        }
        start(&mut tokens, last, painted as u32, piece.meta)?;
        painted = piece.end;
        last = Some(piece.meta);
    }
    Ok(Tokens::new(tokens))
}

/// A token starts here, unless the last one has this metadata.
fn start(tokens: &mut Vec<Token>, last: Option<u32>, at: u32, meta: u32) -> Result<(), OutOfMemory>
    ensures { IfOk result (λ _. tokens.new.items ≡ tokens.old.items ++ starts last at meta) }
{
    if goes_on(last, meta) {
        return Ok(());
    }
    tokens.push(Token { start: at, meta })?;
    Ok(())
}

fn goes_on(last: Option<u32>, meta: u32) -> bool
    ensures { result ≡ is_same last meta }
{
    match last {
        Some(m) => m == meta,
        None => false,
    }
}
