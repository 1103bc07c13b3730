//! Chains of calls of a table.
ghost use Rattle.std.specs.Prelude.{◌≡◌, ◌<◌, ◌++◌, ◌∷◌, [], length, IfOk, IfErr, slice_get, Some};
ghost use Rattle.tm_defs.specs.Tables.{GrowsWithin, IsFullForSome, path_at};
ghost use Rattle.tm_line_turns.specs.LineRun.{names_made};

use tm_defs::frames::ScopeList;
use tm_defs::tables::{States, TableFault};
use tm_defs::texts::{Name, ScopePath};

/// The list with the names added, one after another.
pub fn named_list<S: States>(
    table: &mut S,
    list: ScopeList,
    names: &ScopePath,
) -> Result<ScopeList, TableFault>
    requires { list.0 < length (S.tables table.old).paths }
    ensures ok { IfOk result (λ id. slice_get (S.tables table.new).paths id.0 ≡
        Some (path_at (S.tables table.old) list ++ names.now)) }
    ensures grows { GrowsWithin (names_made (path_at (S.tables table.old) list) names.now)
        (S.tables table.old) (S.tables table.new) }
    ensures full { IfErr result (IsFullForSome (names_made (path_at (S.tables table.old) list) names.now)
        (S.tables table.new)) }
{
    let mut longer = list;
    for name in names.as_slice() {
        match longer_list(table, longer, name) {
            Ok(next) => longer = next,
            Err(fault) => return Err(fault),
        }
    }
    Ok(longer)
}

/// The list with the name added.
fn longer_list<S: States>(
    table: &mut S,
    list: ScopeList,
    name: &Name,
) -> Result<ScopeList, TableFault>
    requires { list.0 < length (S.tables table.old).paths }
    ensures ok { IfOk result (λ id. slice_get (S.tables table.new).paths id.0 ≡
        Some (path_at (S.tables table.old) list ++ name.now ∷ [])) }
    ensures grows { GrowsWithin (names_made (path_at (S.tables table.old) list) (name.now ∷ []))
        (S.tables table.old) (S.tables table.new) }
    ensures full { IfErr result
        (IsFullForSome (names_made (path_at (S.tables table.old) list) (name.now ∷ []))
        (S.tables table.new)) }
{
    match table.text(name) {
        Ok(text) => table.push(list, text),
        Err(fault) => Err(fault),
    }
}
