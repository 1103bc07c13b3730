//! The texts of a rule's patterns, each tried as a pattern.
ghost use Rattle.std.specs.Prelude.{◌≡◌, ◌++◌, chars, Option, Some, IfOk, OnOk};
ghost use Rattle.std.specs.Option.{is_some, option_copied};
ghost use Rattle.tm_onig_class.specs.Tree.{Tree};
ghost use Rattle.tm_onig_parse.specs.Parsed.{parsed};
ghost use Rattle.tm_rules.specs.Readers.{start_text, own_end};
ghost use Rattle.tm_line_lint.specs.Unread.{key_path, unread_if, unread_in, tried, is_read, AreKnown};

use crate::{Reads, Unread};
use smallvec::SmallVec;
use std::alloc::Global;
use tm_defs::caps::Caps;
use tm_defs::memory::OutOfMemory;
use tm_defs::rules::Rule;
use tm_defs::texts::Name;
use tm_onig_atom::store::Sets;
use tm_onig_parse::{ParseFault, parse_with};
use tm_template::ends::{has_references, resolve};
use tm_template::laws::ends_alone;

/// Whether a text is a pattern. The sets that it names are those of the store, where it has them.
fn is_readable(alloc: Global, sets: &mut Sets, text: &Name) -> Result<bool, OutOfMemory>
    ensures { IfOk result (λ is. is ≡ is_some (parsed text.now)) }
{
    match parse_with(alloc, sets, text) {
        Ok(_) => Ok(true),
        Err(ParseFault::Unreadable) => Ok(false),
        Err(ParseFault::OutOfMemory) => Err(OutOfMemory),
    }
}

/// The same where there may be no text.
fn is_read(alloc: Global, sets: &mut Sets, text: Option<&Name>) -> Result<bool, OutOfMemory>
    ensures { IfOk result (λ is. is ≡ is_read (option_copied text.entry)) }
{
    match text {
        Some(text) => is_readable(alloc, sets, text),
        None => Ok(false),
    }
}

/// The text of the pattern that starts a rule.
pub fn start_text(rule: &Rule) -> Option<&Name>
    ensures { option_copied result ≡ start_text (Some rule.now) }
{
    match rule {
        Rule::Match { match_text, .. } => Some(match_text),
        Rule::BeginEnd { begin, .. } => Some(begin),
        Rule::BeginWhile { begin, .. } => Some(begin),
        Rule::Only { .. } => None,
    }
}

/// The text of the pattern that ends it, as it stands in the grammar.
pub fn own_end(rule: &Rule) -> Option<&Name>
    ensures { option_copied result ≡ own_end (Some rule.now) }
{
    match rule {
        Rule::BeginEnd { end_text, .. } => end_text.as_ref(),
        Rule::Match { .. } => None,
        Rule::BeginWhile { .. } => None,
        Rule::Only { .. } => None,
    }
}

/// Reads the patterns of a rule, to know whether they are readable.
pub(crate) fn reads_of(alloc: Global, sets: &mut Sets, rule: &Rule) -> Result<Reads, OutOfMemory>
    ensures { IfOk result (AreKnown rule.now) }
{
    let start = is_read(alloc, sets, start_text(rule))?;
    let end = is_read(alloc, sets, own_end(rule))?;
    Ok(Reads { start, end })
}

fn chars_of(alloc: Global, text: &str) -> Result<Vec<char>, OutOfMemory>
    ensures { IfOk result (λ all. all.items ≡ chars text.now) }
{
    Ok(text.chars().collect(alloc)?)
}

/// The path of a key of a rule; the key has its slash.
fn path_of(alloc: Global, rule: &Name, key: &str) -> Result<Name, OutOfMemory>
    ensures { IfOk result (λ path. path ≡ key_path rule.now key.now) }
{
    let mut path = Vec::new(alloc);
    path.extend_from_slice(rule.as_slice())?;
    path.extend_from_slice(chars_of(alloc, key)?.as_slice())?;
    Ok(Name::new(path))
}

/// Adds the pattern of a key where it is not readable.
fn put(
    alloc: Global,
    found: &mut Vec<Unread>,
    grammar: &Name,
    rule: &Name,
    key: &str,
    readable: bool,
) -> Result<(), OutOfMemory>
    ensures { (tree : Option Tree) → readable ≡ is_some tree →
        OnOk result (found.new.items ≡ found.old.items ++ unread_if grammar.now (key_path rule.now key.now) tree) }
{
    if !readable {
        let grammar = grammar.copy()?;
        let path = path_of(alloc, rule, key)?;
        found.push(Unread { grammar, path })?;
    }
    Ok(())
}

/// The text of an end or a while, as if every captured text was empty.
fn with_nothing(alloc: Global, text: &Name) -> Result<Name, OutOfMemory>
    ensures { IfOk result (λ end. end ≡ tried text.now) }
{
    let caps = Caps::new(SmallVec::new(alloc));
    resolve(alloc, text, &[], &caps)
}

/// Whether an end or a while is readable with every captured text empty.
fn is_tried_readable(alloc: Global, sets: &mut Sets, text: &Name) -> Result<bool, OutOfMemory>
    ensures { IfOk result (λ is. is ≡ is_some (parsed (tried text.now))) }
{
    let text = with_nothing(alloc, text)?;
    is_readable(alloc, sets, &text)
}

/// The same of an end of which it is known whether it is readable as it stands: one without a reference is tried
/// as it stands.
fn is_end_readable(
    alloc: Global,
    sets: &mut Sets,
    text: &Name,
    known: bool,
) -> Result<bool, OutOfMemory>
    requires { known ≡ is_some (parsed text.now) }
    ensures { IfOk result (λ is. is ≡ is_some (parsed (tried text.now))) }
{
    ends_alone();
    if has_references(text) {
        is_tried_readable(alloc, sets, text)
    } else {
        Ok(known)
    }
}

/// Adds the unreadable patterns of a rule, of whose patterns this is known.
pub(crate) fn look_in(
    alloc: Global,
    sets: &mut Sets,
    found: &mut Vec<Unread>,
    rule: &Rule,
    reads: Reads,
) -> Result<(), OutOfMemory>
    requires { AreKnown rule.now reads }
    ensures { OnOk result (found.new.items ≡ found.old.items ++ unread_in rule.now) }
{
    match rule {
        Rule::Match { grammar, path, .. } => put(
            alloc,
            found,
            grammar,
            path,
            "/match",
            reads.start,
        ),
        Rule::BeginEnd {
            grammar,
            path,
            end_text,
            ..
        } => {
            put(alloc, found, grammar, path, "/begin", reads.start)?;
            match end_text {
                Some(end) => {
                    let readable = is_end_readable(alloc, sets, end, reads.end)?;
                    put(alloc, found, grammar, path, "/end", readable)
                }
                None => Ok(()),
            }
        }
        Rule::BeginWhile {
            grammar,
            path,
            while_text,
            ..
        } => {
            put(alloc, found, grammar, path, "/begin", reads.start)?;
            let readable = is_tried_readable(alloc, sets, while_text)?;
            put(alloc, found, grammar, path, "/while", readable)
        }
        Rule::Only { .. } => Ok(()),
    }
}
