//! The tree of a pattern in one line: a node, and then its parts.

use crate::sets::{Test, members};
use crate::texts::push_shown;
use std::alloc::{AllocError, Global};
use tm_onig_class::patterns::{Pattern, Position};

/// The characters of which a printed set tells its members, where a case names no others.
pub(crate) const PROBES: &str = "abzA-]^&09_.# \u{E9}";

/// How many nodes are printed at most.
const MOST_NODES: usize = 1_000;

/// The nodes that are still to be printed, the next one last, and the characters that sets are asked for.
#[derive(Drop)]
struct Printer<'a> {
    alloc: Global,
    waiting: Vec<&'a Pattern>,
    probes: &'a str,
}

fn wait_for<'a>(waiting: &mut Vec<&'a Pattern>, parts: &'a [Pattern]) -> Result<(), AllocError> {
    for part in parts.iter().rev() {
        waiting.push(part)?;
    }
    Ok(())
}

/// A character: `'a`, and without regard to case `~a`.
fn character(alloc: Global, c: char, fold: bool) -> Result<String, AllocError> {
    let mut text = String::new(alloc);
    if fold {
        text.push('~')?;
    }
    match c {
        '\n' => text.push_str("line-feed")?,
        '\t' => text.push_str("tab")?,
        c if c < ' ' => {
            let code = c as u32;
            let word = format!(in alloc; "code-{code}")?;
            text.push_str(&word)?;
        }
        c => {
            if !fold {
                text.push('\'')?;
            }
            push_shown(alloc, &mut text, c)?;
        }
    }
    Ok(text)
}

fn repetition(
    alloc: Global,
    least: u32,
    greatest: Option<u32>,
    greedy: bool,
) -> Result<String, AllocError> {
    let how = if greedy { "times" } else { "lazily" };
    match greatest {
        Some(greatest) => format!(in alloc; "{how} {least}..{greatest}"),
        None => format!(in alloc; "{how} {least}.."),
    }
}

fn reference(alloc: Global, groups: &[u32], fold: bool) -> Result<String, AllocError> {
    let mut text = String::from_str(alloc, if fold { "~back" } else { "back" })?;
    for group in groups {
        let number = format!(in alloc; "-{group}")?;
        text.push_str(&number)?;
    }
    Ok(text)
}

fn place_name(place: Position) -> &'static str {
    match place {
        Position::LineStart => "LineStart",
        Position::LineEnd => "LineEnd",
        Position::TextStart => "TextStart",
        Position::SearchStart => "SearchStart",
        Position::BeforeFinal => "BeforeFinal",
        Position::TextEnd => "TextEnd",
        Position::Word => "Word",
        Position::NotWord => "NotWord",
    }
}

/// A node that has no parts.
fn leaf(alloc: Global, probes: &str, pattern: &Pattern) -> Result<String, AllocError> {
    match pattern {
        Pattern::Char { c, fold } => character(alloc, *c, *fold),
        Pattern::Any { newline: true } => String::from_str(alloc, "any-at-all"),
        Pattern::Any { newline: false } => String::from_str(alloc, "any"),
        Pattern::Set { set, fold } => {
            let folds = if *fold { "~" } else { "" };
            let members = members(alloc, &Test::Has(set), probes)?;
            format!(in alloc; "{folds}set{members}")
        }
        Pattern::Back { groups, fold } => reference(alloc, groups.as_slice(), *fold),
        Pattern::Position(place) => String::from_str(alloc, place_name(*place)),
        _ => String::from_str(alloc, "empty"),
    }
}

/// A node, whose parts are to be printed next.
fn node<'a>(printer: &mut Printer<'a>, pattern: &'a Pattern) -> Result<String, AllocError> {
    let alloc = printer.alloc;
    match pattern {
        Pattern::Cat(parts) => {
            wait_for(&mut printer.waiting, parts.as_slice())?;
            let count = parts.len();
            format!(in alloc; "row {count}")
        }
        Pattern::Alt(parts) => {
            wait_for(&mut printer.waiting, parts.as_slice())?;
            let count = parts.len();
            format!(in alloc; "either {count}")
        }
        Pattern::Group { number, body } => {
            printer.waiting.push(body)?;
            format!(in alloc; "group {number}")
        }
        Pattern::Atomic(body) => {
            printer.waiting.push(body)?;
            String::from_str(alloc, "atomic")
        }
        Pattern::Look {
            body,
            ahead,
            negative,
        } => {
            printer.waiting.push(body)?;
            let not = if *negative { "not-" } else { "" };
            let side = if *ahead { "ahead" } else { "behind" };
            format!(in alloc; "{not}{side}")
        }
        Pattern::Repeat {
            body,
            least,
            greatest,
            greedy,
        } => {
            printer.waiting.push(body)?;
            repetition(alloc, *least, *greatest, *greedy)
        }
        _ => leaf(alloc, printer.probes, pattern),
    }
}

/// The tree, in which sets tell their members among these characters.
pub(crate) fn shown(alloc: Global, pattern: &Pattern, probes: &str) -> Result<String, AllocError> {
    let mut printer = Printer {
        alloc,
        waiting: Vec::new(alloc),
        probes,
    };
    printer.waiting.push(pattern)?;
    let mut text = String::new(alloc);
    for count in 0..MOST_NODES {
        let Some(next) = printer.waiting.pop() else {
            break;
        };
        if count > 0 {
            text.push(' ')?;
        }
        let word = node(&mut printer, next)?;
        text.push_str(&word)?;
    }
    Ok(text)
}
