//! Cases of texts and scope lists by number.

use crate::values::{name_of, number, numbered, path_of, refused, unknown, write_name, write_path};
use std::alloc::Global;
use tm_cases::{Case, CaseFault};
use tm_defs::frames::{ScopeList, TextId};
use tm_scope::scopes::ScopeTable;

/// `scopes LIMIT`: a new table.
pub fn begin(alloc: Global, table: &mut ScopeTable, case: &Case) -> Result<String, CaseFault> {
    let limit = number(case, 0)?;
    if limit == 0 {
        return Err(CaseFault::NoField);
    }
    *table = ScopeTable::new(alloc, limit).map_err(refused)?;
    Ok(format!(in alloc; "limit {}", table.limit())?)
}

/// `text TEXT`, or `text TEXT, LIMIT`.
pub fn text(alloc: Global, table: &mut ScopeTable, case: &Case) -> Result<String, CaseFault> {
    let name = name_of(alloc, case.text(0)?)?;
    let answer = if case.len() == 1 {
        table.text(&name)
    } else {
        table.text_within(&name, number(case, 1)?.min(table.limit()))
    };
    numbered(alloc, answer.map(|id| id.0))
}

/// `name NUMBER`: the text of a number.
pub fn name(alloc: Global, table: &ScopeTable, case: &Case) -> Result<String, CaseFault> {
    let id = number(case, 0)?;
    if id >= table.text_count() {
        return unknown(alloc);
    }
    let mut text = String::new(alloc);
    write_name(&mut text, table.text_of(TextId(id)))?;
    Ok(text)
}

/// `push LIST, TEXT`, or `push LIST, TEXT, LIMIT`, of their numbers.
pub fn push(alloc: Global, table: &mut ScopeTable, case: &Case) -> Result<String, CaseFault> {
    let list = number(case, 0)?;
    let name = number(case, 1)?;
    if list >= table.list_count() || name >= table.text_count() {
        return unknown(alloc);
    }
    let answer = if case.len() == 2 {
        table.push(ScopeList(list), TextId(name))
    } else {
        let limit = number(case, 2)?.min(table.limit());
        table.push_within(ScopeList(list), TextId(name), limit)
    };
    numbered(alloc, answer.map(|id| id.0))
}

/// `last LIST`: the numbers of its last name and of the list before it.
pub fn last(alloc: Global, table: &ScopeTable, case: &Case) -> Result<String, CaseFault> {
    let list = number(case, 0)?;
    if list >= table.list_count() {
        return unknown(alloc);
    }
    match table.last(ScopeList(list)) {
        Some((name, rest)) => Ok(format!(in alloc; "{} {}", name.0, rest.0)?),
        None => Ok(String::from_str(alloc, "none")?),
    }
}

/// `path NAMES`, or `path NAMES, LIMIT`: a whole list.
pub fn path(alloc: Global, table: &mut ScopeTable, case: &Case) -> Result<String, CaseFault> {
    let path = path_of(alloc, case.text(0)?, ' ')?;
    let limit = if case.len() == 1 {
        table.limit()
    } else {
        number(case, 1)?.min(table.limit())
    };
    numbered(alloc, table.path_within(&path, limit).map(|id| id.0))
}

/// `names LIST`: the names of a list.
pub fn names(alloc: Global, table: &ScopeTable, case: &Case) -> Result<String, CaseFault> {
    let list = number(case, 0)?;
    if list >= table.list_count() {
        return unknown(alloc);
    }
    let path = table.names(ScopeList(list)).map_err(refused)?;
    let mut text = String::new(alloc);
    write_path(&mut text, &path, ' ')?;
    Ok(text)
}

/// `counts`: how many texts and lists there are.
pub fn counts(alloc: Global, table: &ScopeTable) -> Result<String, CaseFault> {
    Ok(format!(in alloc;
        "{} texts, {} lists",
        table.text_count(),
        table.list_count()
    )?)
}
