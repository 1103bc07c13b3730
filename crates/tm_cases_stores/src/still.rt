//! A tokenizer that changes no state.
ghost use Rattle.std.specs.Prelude.{ℕ, [], List};
ghost use Rattle.tm_defs.specs.Tables.{none_made};

use std::alloc::Global;
use std::sync::ledger::Ledger;
use tm_defs::frames::StateId;
use tm_defs::steps::Steps;
use tm_defs::tables::States;
use tm_defs::texts::Line;
use tm_defs::tokenizer::{LineFault, LineOut, LineTok};
use tm_defs::tokens::Tokens;

/// A line has no token, and ends as it began.
#[derive(Drop)]
pub struct Still {
    pub alloc: Global,
}

impl LineTok for Still {
    ghost Plain = { ℕ };

    ghost plain = { λ _. 0 };

    ghost tokenized = { λ _ start line. record { tokens = []; end = start } };

    ghost plain_cost = { λ _ _ line. 0 };

    ghost entries_made = { λ _ start line. none_made };

    fn line<S: States, L: Ledger>(
        &self,
        table: &mut S,
        start: StateId,
        _line: &Line,
        _budget: u64,
        steps: &mut Steps<L>,
    ) -> Result<LineOut, LineFault> {
        steps.tick();
        table.prove_known();
        let tokens = Tokens::new(Vec::new(self.alloc));
        Ok(LineOut { tokens, end: start })
    }
}
