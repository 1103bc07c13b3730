//! A small tokenizer, whose every answer is easily worked out by hand.
ghost use Rattle.std.specs.Prelude.{ℕ, ◌++◌, ◌∷◌, [], None, false, length, nat_eq, if◌then◌else◌};

use std::alloc::Global;
use std::sync::ledger::Ledger;
use tm_defs::frames::{Frame, ScopeList, StateId};
use tm_defs::steps::Steps;
use tm_defs::tables::{States, TableFault};
use tm_defs::texts::Line;
use tm_defs::tokenizer::{LineFault, LineOut, LineTok};
use tm_defs::tokens::{Token, Tokens};

/// One token a line, whose metadata is the line's length. A line that is not empty adds a frame to its start; its
/// plain cost is its length.
#[derive(Drop)]
pub struct Small {
    pub alloc: Global,
}

pub const FRAME: Frame = Frame {
    rule: 1,
    end: None,
    names: ScopeList(0),
    contents: ScopeList(0),
    at_eol: false,
};

impl LineTok for Small {
    ghost Plain = { ℕ };

    ghost plain = { λ _. 0 };

    ghost tokenized = { λ _ start line. record {
      tokens = record { start = 0; meta = length line } ∷ [];
      end = if nat_eq (length line) 0 then start else start ++ record { rule = 1; end = None; names = []; contents = []; at_eol = false } ∷ [];
    } };

    ghost plain_cost = { λ _ _ line. length line };

    ghost entries_made = { λ _ start line. record { texts = []; paths = []; states = (start ++ record { rule = 1; end = None; names = []; contents = []; at_eol = false } ∷ []) ∷ [] } };

    fn line<S: States, L: Ledger>(
        &self,
        table: &mut S,
        start: StateId,
        line: &Line,
        budget: u64,
        steps: &mut Steps<L>,
    ) -> Result<LineOut, LineFault> {
        steps.tick();
        let meta = line.as_slice().len() as u32;
        if meta as u64 > budget {
            return Err(LineFault::Budget);
        }
        let mut list = Vec::new(self.alloc);
        let Ok(()) = list.push(Token { start: 0, meta }) else {
            return Err(LineFault::OutOfMemory);
        };
        let tokens = Tokens::new(list);
        table.prove_known();
        if meta == 0 {
            return Ok(LineOut { tokens, end: start });
        }
        match table.intern(FRAME, start) {
            Ok(end) => Ok(LineOut { tokens, end }),
            Err(TableFault::TableFull(count)) => Err(LineFault::TableFull(count)),
            Err(TableFault::OutOfMemory) => Err(LineFault::OutOfMemory),
        }
    }
}
