//! The rules of a setting, as a line asks them.
ghost use Rattle.std.specs.Prelude.{◌≡◌, ◌<◌, length};
ghost use Rattle.std.specs.Option.{option_copied};
ghost use Rattle.std.specs.Prelude.{slice_get};
ghost use Rattle.tm_line.specs.Search.{own_end};
ghost use Rattle.tm_rules.specs.Readers.{content_name_in, name_in};

use crate::names::{end_made_of, scopes_of};
use crate::prepared::Prepared;
use crate::texts;
use std::alloc::Global;
use tm_defs::frames::ScopeList;
use tm_defs::memory::OutOfMemory;
use tm_defs::tables::States;
use tm_defs::texts::{Name, ScopePath};
use tm_defs::tokenizer::LineFault;
use tm_line_lint::texts::own_end;
use tm_line_parts::rules::{LineRules, Question, WhileQuestion};
use tm_line_turns::captures::GroupRule;
use tm_line_turns::found::{Match, Whose, Winner};
use tm_meta::metadata::metadata;
use tm_onig_vm::fault::FindFault;
use tm_onig_vm::program::Room;
use tm_template::names::name_of;

/// What is lent to the searches of a line.
#[derive(Drop)]
pub struct LineRoom {
    search: Room,
}

impl LineRoom {
    pub fn new(alloc: Global) -> Self {
        LineRoom {
            search: Room::new(alloc),
        }
    }
}

impl Prepared {
    /// The name of a rule.
    fn name_in(&self, rule: u32) -> Option<&Name>
        ensures { option_copied result ≡ name_in (slice_get self.now rule) }
    {
        match self.rule(rule) {
            Some(rule) => texts::name_in(rule),
            None => None,
        }
    }

    /// The name of what is inside a rule.
    fn content_name_in(&self, rule: u32) -> Option<&Name>
        ensures { option_copied result ≡ content_name_in (slice_get self.now rule) }
    {
        match self.rule(rule) {
            Some(rule) => texts::content_name_in(rule),
            None => None,
        }
    }

    /// The text of a rule's end.
    fn own_end(&self, rule: u32) -> Option<&Name>
        ensures { option_copied result ≡ own_end (slice_get self.now rule) }
    {
        match self.rule(rule) {
            Some(rule) => own_end(rule),
            None => None,
        }
    }
}

impl LineRules for Prepared {
    ghost use Rattle.std.specs.Prelude.{⊤};
    ghost use Rattle.tm_line.specs.Grammar.{rules_language};
    ghost use Rattle.tm_line.specs.inner.FoundWithin.{finds-in-text};

    type Room = LineRoom;

    ghost language = { rules_language };

    ghost Fits = { λ rules table text room. ⊤ };

    ghost finds = { finds-in-text };

    ghost keeps = { λ rules made t u text room grows h. h };

    fn winner<S: States>(
        &self,
        room: &mut LineRoom,
        table: &S,
        text: &[char],
        asked: Question,
        budget: &mut u64,
    ) -> Result<Winner, LineFault> {
        match self.search(&mut room.search, table, text, asked, budget) {
            Ok(winner) => Ok(winner),
            Err(FindFault::Budget) => Err(LineFault::Budget),
            Err(FindFault::OutOfMemory) => Err(LineFault::OutOfMemory),
        }
    }

    fn fixed_names(&self, rule: u32) -> Option<&ScopePath> {
        match self.inside(rule) {
            Some(inside) => inside.name.as_ref(),
            None => None,
        }
    }

    fn names(&self, text: &[char], rule: u32, m: &Match) -> Result<ScopePath, OutOfMemory> {
        scopes_of(self.alloc, self.name_in(rule), text, m)
    }

    fn fixed_content_names(&self, rule: u32) -> Option<&ScopePath> {
        match self.inside(rule) {
            Some(inside) => inside.content_name.as_ref(),
            None => None,
        }
    }

    fn content_names(&self, text: &[char], rule: u32, m: &Match) -> Result<ScopePath, OutOfMemory> {
        scopes_of(self.alloc, self.content_name_in(rule), text, m)
    }

    fn end_text(&self, text: &[char], rule: u32, m: &Match) -> Result<Option<Name>, OutOfMemory> {
        end_made_of(self.alloc, self.own_end(rule), text, m)
    }

    fn captures(&self, whose: Whose, rule: u32) -> &[GroupRule] {
        match self.inside(rule) {
            Some(inside) => inside.groups.at(whose),
            None => &[],
        }
    }

    fn filled(&self, text: &[char], m: &Match, template: &Name) -> Result<ScopePath, OutOfMemory> {
        name_of(self.alloc, template, text, &m.groups)
    }

    fn has_while(&self, _rule: u32) -> bool {
        false
    }

    fn while_match<S: States>(
        &self,
        _room: &mut LineRoom,
        _table: &S,
        _text: &[char],
        _asked: WhileQuestion,
        _budget: &mut u64,
    ) -> Result<Option<Match>, LineFault> {
        Ok(None)
    }

    fn inner_room(&self, _text: &[char]) -> Result<LineRoom, OutOfMemory> {
        Ok(LineRoom::new(self.alloc))
    }

    fn meta<S: States>(&self, table: &S, list: ScopeList) -> u32 {
        metadata(table, list)
    }
}
