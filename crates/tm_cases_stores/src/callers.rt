//! Callers that the READMEs of the stores' and texts' crates show, proved.
ghost use Rattle.std.specs.Prelude.{◌≡◌, ◌<◌, OnErr, OnOk, length};
ghost use Rattle.tm_machine.specs.Changes.{lines_changed};
ghost use Rattle.tm_machine.specs.Entries.{end_at, put};
ghost use Rattle.tm_store.specs.Stores.{is_same};

use tm_defs::changes::{Change, ChangeFault, LineEffect};
use tm_defs::memory::OutOfMemory;
use tm_defs::tokens::Tokens;
use tm_store::store::Store;
use tm_text::text::Text;

/// The first line is done.
pub fn first_is_done<S: Copy + Eq>(
    store: &mut Store<S>,
    tokens: Tokens,
    end: S,
) -> Result<(), OutOfMemory>
    requires { 0 < length store.old.entries }
    ensures { OnOk result (store.new.entries ≡ put store.old.entries 0 tokens end (is_same S.eq (end_at store.old.entries 0) end)) }
{
    store.reserve(2)?;
    store.put(0, tokens, end);
    Ok(())
}

/// Applies a change by a plan.
pub fn by_a_plan(text: &mut Text, change: &Change) -> Result<LineEffect, ChangeFault>
    ensures lines { OnOk result (text.new.lines ≡ lines_changed text.old.lines change.now) }
    ensures err { OnErr result (text.new.lines ≡ text.old.lines) }
{
    let plan = text.plan(change)?;
    Ok(text.commit(plan))
}
