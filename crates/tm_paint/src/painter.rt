//! The painter of a line.
ghost use Rattle.std.specs.Prelude.{◌≡◌, ◌+◌, ◌++◌, ◌∷◌, [], ◌<◌, ◌≤◌, length, vec_len, vec_capacity, IfOk, OnOk};
ghost use Rattle.tm_paint.specs.Painted.{runs_of, starts, is_same, marks, meta_at, furthest};

use std::alloc::Global;
use std::marker::Model;
use tm_defs::frames::ScopeList;
use tm_defs::memory::OutOfMemory;
use tm_defs::tokens::{Token, Tokens};

/// What is painted from the last painted end on: `end` counts characters, `scopes` is the list in its table, `meta` the
/// 32-bit metadata of vscode-textmate.
#[derive(Clone, Copy, Debug, PartialEq, Eq)]
pub struct Painted {
    pub end: u32,
    pub scopes: ScopeList,
    pub meta: u32,
}

/// What is painted of a line, piece by piece. Contracts see the pieces, and the spare room: for how many more pieces
/// there is room, and for the tokens of all.
#[derive(Drop)]
pub struct Painter {
    pieces: Vec<Painted>,
    // The room of the tokens, which are written in the end.
    tokens: Vec<Token>,
}

impl Model for Painter {
    ghost use Rattle.std.specs.Prelude.{◌≡◌, ◌<◌, ◌≤◌, ◌-◌, [], min, vec_len, vec_capacity};
    ghost use Rattle.tm_paint.specs.Painting.{Painting};

    ghost Value = { Painting };

    ghost view = { λ a. record { pieces = a.pieces.items; spare = min (vec_capacity a.pieces) (vec_capacity a.tokens) - vec_len a.pieces } };

    ghost invariant = { λ a. (a.tokens.items ≡ []) × (vec_len a.tokens ≡ 0) × (0 < vec_capacity a.tokens) × (vec_len a.pieces ≤ vec_capacity a.tokens) };
}

impl Painter {
    /// Nothing is painted. There is room for the one token of an empty line.
    pub fn new(alloc: Global) -> Result<Self, OutOfMemory>
        ensures { IfOk result (λ painter. painter.pieces ≡ []) }
    {
        let tokens = Vec::with_capacity(alloc, 1)?;
        Ok(Painter {
            pieces: Vec::new(alloc),
            tokens,
        })
    }

    /// Takes room for `n` more pieces and their tokens.
    pub fn reserve(&mut self, n: u32) -> Result<(), OutOfMemory>
        ensures pieces { self.new.pieces ≡ self.old.pieces }
        ensures spare { OnOk result (n ≤ self.new.spare) }
        ensures no_less { self.old.spare ≤ self.new.spare }
    {
        self.pieces.reserve(n as usize)?;
        let Some(all) = self.pieces.len().checked_add(n as usize) else {
            return Err(OutOfMemory);
        };
        self.tokens.reserve(all)?;
        Ok(())
    }

    /// Paints up to an end, which counts characters. It takes no memory.
    pub fn to(&mut self, end: u32, scopes: ScopeList, meta: u32)
        requires spare { 0 < self.old.spare }
        ensures pieces { self.new.pieces ≡ self.old.pieces ++ record { end = end; scopes = scopes; meta = meta } ∷ [] }
        ensures spare { self.new.spare + 1 ≡ self.old.spare }
    {
        push_in_room(&mut self.pieces, Painted { end, scopes, meta });
    }

    /// The pieces, in the order in which they were painted.
    pub fn pieces(&self) -> &[Painted]
        ensures { result.now ≡ self.now.pieces }
    {
        self.pieces.as_slice()
    }

    /// The tokens of a line of `len` characters, without its line break: the maximal runs of equal metadata, after
    /// vscode-textmate. An empty line has one, with `end_meta`, the metadata of the state behind the line. It takes no
    /// memory.
    pub fn finish(self, len: u32, end_meta: u32) -> Tokens
        requires reach { len ≤ furthest (marks self.pieces) }
        ensures { result ≡ runs_of (meta_at (marks self.pieces)) end_meta len }
    {
        let Painter { pieces, mut tokens } = self;
        write_tokens(&mut tokens, pieces.as_slice(), len, end_meta);
        Tokens::new(tokens)
    }
}

/// One more item, in room that is there.
fn push_in_room<T: Drop>(items: &mut Vec<T>, item: T)
    requires room { vec_len items.old < vec_capacity items.old }
    ensures items { items.new.items ≡ items.old.items ++ item ∷ [] }
    ensures len { vec_len items.new ≡ vec_len items.old + 1 }
    ensures room { vec_capacity items.new ≡ vec_capacity items.old }
{
    let end = items.len();
    if items.insert(end, item).is_err() {
        unreachable!()
    }
}

fn goes_on(last: Option<u32>, meta: u32) -> bool
    ensures { result ≡ is_same last meta }
{
    match last {
        Some(m) => m == meta,
        None => false,
    }
}

/// A token starts here, unless the last one has this metadata.
fn start(tokens: &mut Vec<Token>, last: Option<u32>, at: u32, meta: u32)
    requires room { vec_len tokens.old < vec_capacity tokens.old }
    ensures items { tokens.new.items ≡ tokens.old.items ++ starts last at meta }
    ensures len { vec_len tokens.new ≤ vec_len tokens.old + 1 }
    ensures room { vec_capacity tokens.new ≡ vec_capacity tokens.old }
{
    if !goes_on(last, meta) {
        push_in_room(tokens, Token { start: at, meta });
    }
}

/// Writes the tokens of pieces, in room that is there: one pass over the pieces, with the last painted end.
fn write_tokens(tokens: &mut Vec<Token>, pieces: &[Painted], len: u32, end_meta: u32)
    requires empty { tokens.old.items ≡ [] }
    requires none { vec_len tokens.old ≡ 0 }
    requires some { 0 < vec_capacity tokens.old }
    requires room { length pieces.now ≤ vec_capacity tokens.old }
    requires reach { len ≤ furthest (marks pieces.now) }
    ensures { tokens.new.items ≡ runs_of (meta_at (marks pieces.now)) end_meta len }
{
    if len == 0 {
        push_in_room(
            tokens,
            Token {
                start: 0,
                meta: end_meta,
            },
        );
        return;
    }
    let mut painted = 0;
    let mut last = None;
    for piece in pieces {
        if piece.end <= painted {
            continue;
        }
        if len <= painted {
            continue;
        }
        start(tokens, last, painted, piece.meta);
        painted = piece.end;
        last = Some(piece.meta);
    }
}
