//! A small tokenizer whose lines open frames and close them, so that batches have deltas of every kind.
ghost use Rattle.std.specs.Prelude.{ℕ, ◌++◌, ◌∷◌, [], None, false, length, nat_eq, if◌then◌else◌};

use std::alloc::Global;
use std::sync::ledger::Ledger;
use tm_defs::frames::{Frame, ScopeList, StateId};
use tm_defs::steps::Steps;
use tm_defs::tables::{States, TableFault};
use tm_defs::texts::Line;
use tm_defs::tokenizer::{LineFault, LineOut, LineTok};
use tm_defs::tokens::{Token, Tokens};

/// One token a line, of the tokenizer's own metadata. An empty line closes all frames, a line of one character leaves
/// them, and a longer one opens one more. Its plain cost is its length.
#[derive(Drop)]
pub struct Closing {
    pub alloc: Global,
    pub meta: u32,
}

const OPENED: Frame = Frame {
    rule: 2,
    end: None,
    names: ScopeList(0),
    contents: ScopeList(0),
    at_eol: false,
};

impl LineTok for Closing {
    ghost Plain = { ℕ };

    ghost plain = { λ setting. setting.meta };

    ghost tokenized = { λ meta start line. record {
      tokens = record { start = 0; meta = meta } ∷ [];
      end = if nat_eq (length line) 0 then [] else (if nat_eq (length line) 1 then start else start ++ record { rule = 2; end = None; names = []; contents = []; at_eol = false } ∷ []);
    } };

    ghost plain_cost = { λ _ _ line. length line };

    ghost entries_made = { λ _ start line. record { texts = []; paths = []; states = (start ++ record { rule = 2; end = None; names = []; contents = []; at_eol = false } ∷ []) ∷ [] } };

    fn line<S: States, L: Ledger>(
        &self,
        table: &mut S,
        start: StateId,
        line: &Line,
        budget: u64,
        steps: &mut Steps<L>,
    ) -> Result<LineOut, LineFault> {
        steps.tick();
        let length = line.as_slice().len();
        if length as u64 > budget {
            return Err(LineFault::Budget);
        }
        let token = Token {
            start: 0,
            meta: self.meta,
        };
        let mut list = Vec::new(self.alloc);
        let Ok(()) = list.push(token) else {
            return Err(LineFault::OutOfMemory);
        };
        let tokens = Tokens::new(list);
        table.prove_known();
        if length == 0 {
            let end = StateId(0);
            return Ok(LineOut { tokens, end });
        }
        if length == 1 {
            return Ok(LineOut { tokens, end: start });
        }
        match table.intern(OPENED, start) {
            Ok(end) => Ok(LineOut { tokens, end }),
            Err(TableFault::TableFull(count)) => Err(LineFault::TableFull(count)),
            Err(TableFault::OutOfMemory) => Err(LineFault::OutOfMemory),
        }
    }
}
