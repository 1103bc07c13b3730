//! Searches of one pattern.
use crate::lines::{groups, line, small};
use crate::trees::tree;
use std::alloc::Global;
use tm_cases::{Case, CaseFault};
use tm_onig_class::patterns::Pattern;
use tm_onig_vm::fault::FindFault;
use tm_onig_vm::program::{compile, find, instructions};

/// `search TREE, LINE, FROM, ANCHORS, BUDGET`: the groups of the first match.
pub fn search(alloc: Global, case: &Case) -> Result<String, CaseFault> {
    let pattern = tree(alloc, case.text(0)?)?;
    let text = line(alloc, case.text(1)?)?;
    let from = small(case.number(2)?)?;
    let anchors = case.text(3)?;
    let mut budget = case.number(4)?;
    let program = compile(alloc, &pattern).or(Err(CaseFault::OutOfMemory))?;
    let allow_a = anchors.contains('a');
    let allow_g = anchors.contains('g');
    match find(alloc, &program, &text, from, allow_a, allow_g, &mut budget) {
        Ok(None) => Ok(format!(in alloc; "none")?),
        Ok(Some(caps)) => groups(alloc, &caps),
        Err(FindFault::Budget) => Ok(format!(in alloc; "over the budget")?),
        Err(FindFault::OutOfMemory) => Err(CaseFault::OutOfMemory),
    }
}

/// `instructions TREE`: how many a program has.
pub fn instructions_of(alloc: Global, case: &Case) -> Result<String, CaseFault> {
    let pattern = tree(alloc, case.text(0)?)?;
    let count = instructions(&compile(alloc, &pattern).or(Err(CaseFault::OutOfMemory))?);
    Ok(format!(in alloc; "{count}")?)
}

/// `instructions_counted TREE, LEAST, GREATEST`: the same of a loop over the tree.
pub fn instructions_counted(alloc: Global, case: &Case) -> Result<String, CaseFault> {
    let body = tree(alloc, case.text(0)?)?;
    let counted = Pattern::Repeat {
        body: Box::new(alloc, body)?,
        least: small(case.number(1)?)?,
        greatest: Some(small(case.number(2)?)?),
        greedy: true,
    };
    let count = instructions(&compile(alloc, &counted).or(Err(CaseFault::OutOfMemory))?);
    Ok(format!(in alloc; "{count}")?)
}
