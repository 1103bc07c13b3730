//! The numbers of the parts of a frame.
ghost use Rattle.std.specs.Prelude.{◌≡◌, ◌≤◌, IfOk, OnErr, IfErr};
ghost use Rattle.std.specs.Option.{option_map};
ghost use Rattle.tm_defs.specs.Tables.{GrowsWithin, IsFrameOf, IsOptionalText, frame_at, text_at};
ghost use Rattle.tm_scope.specs.Entries.{HasEntries, KeepsLimits, IsFullFor};
ghost use Rattle.tm_state.specs.Entries.{end_entries, frame_entries};

use tm_defs::frames::{Frame, FrameData, TextId};
use tm_defs::tables::TableFault;
use tm_defs::texts::Name;
use tm_scope::scopes::ScopeTable;

/// The number of the text of an end, where there is one.
fn end_within(
    scopes: &mut ScopeTable,
    end: &Option<Name>,
    limit: u32,
) -> Result<Option<TextId>, TableFault>
    requires { limit ≤ scopes.old.limit }
    ensures range { IfOk result (IsOptionalText scopes.new) }
    ensures ok { IfOk result (λ id. option_map (text_at scopes.new) id ≡ end.now) }
    ensures grows { GrowsWithin (end_entries end.now) scopes.old scopes.new }
    ensures limit { KeepsLimits limit scopes.old scopes.new }
    ensures absent { OnErr result (¬ HasEntries (end_entries end.now) scopes.old) }
    ensures full { IfErr result (IsFullFor limit (end_entries end.now) scopes.new) }
{
    let Some(text) = end else {
        return Ok(None);
    };
    let id = match scopes.text_within(text, limit) {
        Ok(id) => id,
        Err(fault) => return Err(fault),
    };
    Ok(Some(id))
}

/// The numbers of the parts of a frame, each of which is kept where it is new and fewer than `limit` of its
/// kind are there.
pub fn frame_within(
    scopes: &mut ScopeTable,
    frame: &FrameData,
    limit: u32,
) -> Result<Frame, TableFault>
    requires { limit ≤ scopes.old.limit }
    ensures range { IfOk result (IsFrameOf scopes.new) }
    ensures ok { IfOk result (λ number. frame_at scopes.new number ≡ frame.now) }
    ensures grows { GrowsWithin (frame_entries frame.now) scopes.old scopes.new }
    ensures limit { KeepsLimits limit scopes.old scopes.new }
    ensures absent { OnErr result (¬ HasEntries (frame_entries frame.now) scopes.old) }
    ensures full { IfErr result (IsFullFor limit (frame_entries frame.now) scopes.new) }
{
    let end = match end_within(scopes, &frame.end, limit) {
        Ok(end) => end,
        Err(fault) => return Err(fault),
    };
    let names = match scopes.path_within(&frame.names, limit) {
        Ok(names) => names,
        Err(fault) => return Err(fault),
    };
    let contents = match scopes.path_within(&frame.contents, limit) {
        Ok(contents) => contents,
        Err(fault) => return Err(fault),
    };
    Ok(Frame {
        rule: frame.rule,
        end,
        names,
        contents,
        at_eol: frame.at_eol,
    })
}
