//! Cases of plain data, each of which is copied, and a caller of numberings.
ghost use Rattle.std.specs.Prelude.{◌≡◌, ◌<◌, ◌++◌, ◌∷◌, [], length, slice_get, Some, IfSome};
ghost use Rattle.tm_defs.specs.Tables.{path_at};

use crate::states::{state_of, write_state};
use crate::values::{name_of, number, path_of, refused, unknown, write_name, write_path};
use smallvec::SmallVec;
use std::alloc::Global;
use tm_cases::{Case, CaseFault};
use tm_defs::caps::Caps;
use tm_defs::changes::Change;
use tm_defs::frames::ScopeList;
use tm_defs::tables::States;
use tm_defs::texts::{Line, Name};
use tm_defs::tokens::{Token, Tokens};
use tm_state::states::StateTable;

/// The number of a list with a name of this text.
fn number_of<S: States>(states: &mut S, list: ScopeList, text: &Name) -> Option<ScopeList>
    requires { list.0 < length (S.tables states.old).paths }
    ensures { IfSome result (λ id. slice_get (S.tables states.new).paths id.0 ≡ Some (path_at (S.tables states.old) list ++ text.now ∷ [])) }
{
    let Ok(name) = states.text(text) else {
        return None;
    };
    states.push(list, name).ok()
}

/// `number_of LIST, TEXT`: the number of the list with the text behind it, or that there is none.
pub fn listed(alloc: Global, table: &mut StateTable, case: &Case) -> Result<String, CaseFault> {
    let list = number(case, 0)?;
    if list >= table.list_count() {
        return unknown(alloc);
    }
    let name = name_of(alloc, case.text(1)?)?;
    match number_of(table, ScopeList(list), &name) {
        Some(id) => Ok(format!(in alloc; "{}", id.0)?),
        None => Ok(String::from_str(alloc, "none")?),
    }
}

fn copied_name(text: &mut String, name: &Name) -> Result<(), CaseFault> {
    let copy = name.copy().map_err(refused)?;
    if copy.same(name) {
        write_name(text, &copy)?;
    }
    Ok(())
}

fn copied_line(alloc: Global, text: &mut String, word: &str) -> Result<(), CaseFault> {
    let mut chars = Vec::new(alloc);
    for c in word.chars() {
        chars.push(c)?;
    }
    let copy = Line::new(chars).copy().map_err(refused)?;
    for c in copy.as_slice() {
        text.push(*c)?;
    }
    Ok(())
}

fn copied_tokens(alloc: Global, text: &mut String, case: &Case) -> Result<(), CaseFault> {
    let mut list = Vec::new(alloc);
    list.push(Token {
        start: number(case, 1)?,
        meta: number(case, 2)?,
    })?;
    let copy = Tokens::new(list).copy().map_err(refused)?;
    for token in copy.as_slice() {
        let word = format!(in alloc; "{}:{}", token.start, token.meta)?;
        text.push_str(&word)?;
    }
    Ok(())
}

fn copied_groups(alloc: Global, text: &mut String, case: &Case) -> Result<(), CaseFault> {
    let mut groups = SmallVec::new(alloc);
    groups.push(Some((number(case, 1)?, number(case, 2)?)))?;
    let copy = Caps::new(groups).copy().map_err(refused)?;
    for group in copy.as_slice() {
        if let Some((start, end)) = group {
            let word = format!(in alloc; "{start}..{end}")?;
            text.push_str(&word)?;
        }
    }
    Ok(())
}

fn copied_change(alloc: Global, text: &mut String, case: &Case) -> Result<(), CaseFault> {
    let change = Change {
        from_line: number(case, 1)?,
        from_col: number(case, 2)?,
        to_line: number(case, 3)?,
        to_col: number(case, 4)?,
        text: name_of(alloc, case.text(5)?)?,
    };
    let copy = change.copy().map_err(refused)?;
    let places = format!(in alloc;
        "{} {} {} {} ",
        copy.from_line, copy.from_col, copy.to_line, copy.to_col
    )?;
    text.push_str(&places)?;
    copied_name(text, &copy.text)
}

/// `copied KIND, ..`: what a copy of the value has.
pub fn copied(alloc: Global, case: &Case) -> Result<String, CaseFault> {
    let mut text = String::new(alloc);
    match case.text(0)? {
        "name" => copied_name(&mut text, &name_of(alloc, case.text(1)?)?)?,
        "line" => copied_line(alloc, &mut text, case.text(1)?)?,
        "path" => {
            let path = path_of(alloc, case.text(1)?, ' ')?;
            write_path(&mut text, &path.copy().map_err(refused)?, ' ')?;
        }
        "state" => {
            let state = state_of(alloc, case.text(1)?)?;
            write_state(alloc, &mut text, &state.copy().map_err(refused)?)?;
        }
        "tokens" => copied_tokens(alloc, &mut text, case)?,
        "groups" => copied_groups(alloc, &mut text, case)?,
        "change" => copied_change(alloc, &mut text, case)?,
        _ => return Err(CaseFault::NoField),
    }
    Ok(text)
}
