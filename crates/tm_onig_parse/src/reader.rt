//! The stack of open groups, and the loop over a text.
ghost use Rattle.std.specs.Prelude.{OnOk, ◌≡◌, ◌≤◌, ◌+◌, ◌∷◌, Some, map};
ghost use Rattle.tm_onig_class.specs.Tree.{tree_of};
ghost use Rattle.tm_onig_parse.specs.Things.{count};
ghost use Rattle.tm_onig_parse.specs.inner.Reading.{Close, step, change_last, more_times, is_set, settled, close_in, entered, open_in, finish_in, finish, start, onward};
ghost use Rattle.tm_onig_parse.specs.Parsed.{parsed};
ghost use Rattle.tm_onig_parse.specs.declared.groups.Opener.TheVariants.{Sets as BySetting};
ghost use Rattle.tm_onig_parse.specs.inner.Views.{Gives, Steps, built_of, level_of_frame, names_known, state_of_reader, sym_of_token};

use crate::ParseFault;
use crate::groups::{Frame, Opener, end_row, fresh, whole};
use crate::names::GroupNames;
use crate::outlines::group_names;
use crate::part::Part;
use crate::parts::{group, push};
use crate::quantifiers::{Manner, quantify};
use crate::tokens::{Token, next_token};
use std::alloc::Global;
use std::mem;
use tm_onig_atom::options::{Options, none};
use tm_onig_atom::store::Sets;
use tm_onig_class::patterns::Pattern;

/// How many characters a pattern has at most.
const LONGEST: usize = 65_536;

/// How many groups that capture a pattern has at most.
const MOST_GROUPS: u32 = 1_000;

/// What was read so far.
#[derive(Drop)]
pub struct Reader {
    /// The groups around, the nearest last.
    pub outer: Vec<Frame>,
    pub top: Frame,
    /// How many groups that capture were opened.
    pub opened: u32,
}

/// Puts a quantifier behind the last part.
fn repeat_last(
    alloc: Global,
    row: &mut Vec<Part>,
    least: u32,
    greatest: Option<u32>,
    manner: Manner,
) -> Result<(), ParseFault>
    ensures { Steps result (map built_of row.new.items) (change_last (more_times least greatest manner) (map built_of row.old.items)) }
{
    let Some(part) = row.pop() else {
        return Err(ParseFault::Unreadable);
    };
    match quantify(alloc, part, least, greatest, manner) {
        Ok(whole) => push(row, whole),
        Err(fault) => Err(fault),
    }
}

/// Begins a level inside.
fn enter(reader: &mut Reader, inner: Frame) -> Result<(), ParseFault>
    ensures { let old = state_of_reader reader.old in
        Steps result (state_of_reader reader.new) (Some (record { outer = old.top ∷ old.outer; top = level_of_frame inner; opened = old.opened })) }
{
    let outer = mem::replace(&mut reader.top, inner);
    let Ok(()) = reader.outer.push(outer) else {
        return Err(ParseFault::OutOfMemory);
    };
    Ok(())
}

/// How many groups that capture an opening begins.
fn count(opener: Opener) -> u32
    ensures value { result ≡ count opener }
    ensures small { result ≤ 1 }
{
    match opener {
        Opener::Captures => 1,
        Opener::Groups | Opener::Sets | Opener::Keeps | Opener::Looks { .. } => 0,
    }
}

/// Begins a group.
fn open(
    alloc: Global,
    reader: &mut Reader,
    opener: Opener,
    options: Options,
) -> Result<(), ParseFault>
    ensures { Steps result (state_of_reader reader.new) (open_in opener options (state_of_reader reader.old)) }
{
    let more = count(opener);
    if reader.opened > MOST_GROUPS - more {
        return Err(ParseFault::Unreadable);
    }
    reader.opened += more;
    let inner = fresh(alloc, opener, reader.opened, options);
    enter(reader, inner)
}

/// Sets options to the end of the group.
fn switch(alloc: Global, reader: &mut Reader, options: Options) -> Result<(), ParseFault>
    ensures { let old = state_of_reader reader.old in Steps result (state_of_reader reader.new) (Some (entered BySetting old.opened options old)) }
{
    let inner = fresh(alloc, Opener::Sets, reader.opened, options);
    enter(reader, inner)
}

/// Ends the group that is open.
fn leave(alloc: Global, reader: &mut Reader) -> Result<(), ParseFault>
    ensures { let old = state_of_reader reader.old in Steps result (state_of_reader reader.new) (close_in old.opened (old.outer, old.top)) }
{
    let Some(outer) = reader.outer.pop() else {
        return Err(ParseFault::Unreadable);
    };
    let inner = mem::replace(&mut reader.top, outer);
    let opener = inner.opener;
    let number = inner.number;
    let body = match whole(alloc, inner) {
        Ok(body) => body,
        Err(fault) => return Err(fault),
    };
    match group(alloc, opener, number, body) {
        Ok(part) => push(&mut reader.top.row, part),
        Err(fault) => Err(fault),
    }
}

/// Whether options that were set made the group.
fn is_set(opener: Opener) -> bool
    ensures { result ≡ is_set opener }
{
    match opener {
        Opener::Sets => true,
        Opener::Captures | Opener::Groups | Opener::Keeps | Opener::Looks { .. } => false,
    }
}

/// Ends the groups that options made, up to one of another kind or the whole pattern.
fn settle(alloc: Global, reader: &mut Reader) -> Result<(), ParseFault>
    ensures pair { let old = state_of_reader reader.old in let new = state_of_reader reader.new in
        Steps result (new.outer, new.top) (settled old.outer old.top) }
    ensures opened { OnOk result (reader.new.opened ≡ reader.old.opened) }
{
    while is_set(reader.top.opener) && !reader.outer.is_empty() {
        if let Err(fault) = leave(alloc, reader) {
            return Err(fault);
        }
    }
    Ok(())
}

/// Ends a group at its `)`.
fn close(alloc: Global, reader: &mut Reader) -> Result<(), ParseFault>
    ensures { Steps result (state_of_reader reader.new) (step Close (state_of_reader reader.old)) }
{
    match settle(alloc, reader) {
        Ok(()) => leave(alloc, reader),
        Err(fault) => Err(fault),
    }
}

/// Goes on by one thing.
#[tactic(auto, unfolding(crate::specs::inner::Reading::step))]
fn take(alloc: Global, reader: &mut Reader, token: Token) -> Result<(), ParseFault>
    ensures { Steps result (state_of_reader reader.new) (step (sym_of_token token) (state_of_reader reader.old)) }
{
    match token {
        Token::Means(part) => push(&mut reader.top.row, part),
        Token::Open {
            opener,
            name: _,
            options,
        } => open(alloc, reader, opener, options),
        Token::Switches(options) => switch(alloc, reader, options),
        Token::Close => close(alloc, reader),
        Token::Or => end_row(alloc, &mut reader.top),
        Token::Repeats {
            least,
            greatest,
            manner,
        } => repeat_last(alloc, &mut reader.top.row, least, greatest, manner),
        Token::Skips => Ok(()),
    }
}

/// The pattern of a reader whose groups that options made have ended.
fn finished(alloc: Global, reader: Reader) -> Result<Pattern, ParseFault>
    ensures { let s = state_of_reader reader in Gives tree_of result (finish_in (s.outer, s.top)) }
{
    let Reader {
        outer,
        top,
        opened: _,
    } = reader;
    if !outer.is_empty() {
        return Err(ParseFault::Unreadable);
    }
    match whole(alloc, top) {
        Ok(part) => Ok(part.pattern),
        Err(fault) => Err(fault),
    }
}

/// Ends the pattern.
fn end(alloc: Global, mut reader: Reader) -> Result<Pattern, ParseFault>
    ensures { Gives tree_of result (finish (state_of_reader reader)) }
{
    match settle(alloc, &mut reader) {
        Ok(()) => finished(alloc, reader),
        Err(fault) => Err(fault),
    }
}

/// The pattern that the text spells, however long it is, where it has these groups.
fn read_all(
    alloc: Global,
    sets: &mut Sets,
    groups: &GroupNames,
    text: &[char],
) -> Result<Pattern, ParseFault>
    ensures { Gives tree_of result (onward (names_known groups.now) start text.now) }
{
    let mut reader = Reader {
        outer: Vec::new(alloc),
        top: fresh(alloc, Opener::Groups, 0, none()),
        opened: 0,
    };
    let mut rest = text;
    while !rest.is_empty() {
        let (token, after) = match next_token(alloc, sets, groups, reader.top.options, rest) {
            Ok(found) => found,
            Err(fault) => return Err(fault),
        };
        if let Err(fault) = take(alloc, &mut reader, token) {
            return Err(fault);
        }
        rest = after;
    }
    end(alloc, reader)
}

/// The pattern that the text spells. The sets that it names are those of the store, where it has them.
pub fn read(alloc: Global, sets: &mut Sets, text: &[char]) -> Result<Pattern, ParseFault>
    ensures { Gives tree_of result (parsed text.now) }
{
    if text.len() > LONGEST {
        return Err(ParseFault::Unreadable);
    }
    match group_names(alloc, sets, text) {
        Ok(names) => read_all(alloc, sets, &GroupNames::Read(names), text),
        Err(fault) => Err(fault),
    }
}
