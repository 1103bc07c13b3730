//! Texts and scope lists by number.
//!
//! A scope list is numbered by its last name and the number of the list before it, so a list of any
//! length takes one small link, and a name is added by one look-up.
ghost use Rattle.std.specs.Prelude.{◌≡◌, ◌<◌, ◌≤◌, [], ◌∷◌, ◌++◌, length, Some, slice_get, IfOk, OnOk, OnErr, IfErr, MatchOption, Contains};
ghost use Rattle.tm_defs.specs.Tables.{IsNumbering, GrowsWithin, only_text, only_path, longer_path, IsFullForSome, text_at, path_at};
ghost use Rattle.tm_scope.specs.Numbered.{taken, HasNumber, TakesIn, KeepsLimit, IsFullAt};
ghost use Rattle.tm_scope.specs.Entries.{text_and_path, path_entries, HasPathEntries, KeepsLimits, IsFullFor};

use crate::numbered::{Exact, NumberedSet};
use std::alloc::Global;
use std::marker::Model;
use tm_defs::frames::{ScopeList, TextId};
use tm_defs::memory::OutOfMemory;
use tm_defs::tables::TableFault;
use tm_defs::texts::{Name, ScopePath};

/// A scope list by its last name and the list before it.
#[derive(Clone, Copy, Debug, PartialEq, Eq, Hash)]
pub struct NameLink {
    pub name: TextId,
    pub rest: ScopeList,
}

impl Exact for NameLink {
    ghost use Rattle.std.proofs.Common.{rules};

    ghost one_value = { Prim.search rules };
}

impl Exact for Name {
    ghost use Rattle.std.specs.Cmp.Lexicographic.{bytes_decides};

    ghost one_value = { λ x y. (bytes_decides x y).0 };
}

/// Texts and scope lists by number, at most `limit` of each. List 0 is the empty one. Contracts see the
/// tables of a numbering whose one state is the opening state.
#[derive(Drop)]
pub struct ScopeTable {
    texts: NumberedSet<Name>,
    lists: NumberedSet<NameLink>,
    limit: u32,
}

impl Model for ScopeTable {
    ghost use Rattle.tm_defs.specs.Tables.{Tables};
    ghost use Rattle.tm_scope.specs.Scopes.{scopes_of, AreScopes};

    ghost Value = { Tables };

    ghost view = { λ a. scopes_of a.texts.values a.lists.values a.limit };

    ghost invariant = { λ a. AreScopes a.texts a.lists a.limit };
}

/// The number of a text, of which a copy is made only where it is new.
fn intern_text(texts: &mut NumberedSet<Name>, text: &Name, limit: u32) -> Result<u32, TableFault>
    ensures ok { IfOk result (λ n. HasNumber texts.new n text.now) }
    ensures first { texts.new.first ≡ texts.old.first }
    ensures values { OnOk result (TakesIn text.now texts.old.values texts.new.values) }
    ensures limit { KeepsLimit limit (taken texts.old) (taken texts.new) }
    ensures err { OnErr result (texts.new ≡ texts.old) }
    ensures absent { OnErr result (¬ Contains texts.old.values text.now) }
    ensures full { IfErr result (IsFullAt limit (taken texts.old)) }
{
    if let Some(number) = texts.find(text) {
        return Ok(number);
    }
    if texts.is_full(limit) {
        return Err(TableFault::TableFull(limit));
    }
    let copy = text.copy()?;
    Ok(texts.add(copy)?)
}

impl ScopeTable {
    /// A table without texts that has the empty list alone, with its first room.
    pub fn new(alloc: Global, limit: u32) -> Result<Self, OutOfMemory>
        requires { 0 < limit }
        ensures { IfOk result (λ table. table ≡ record { texts = []; paths = [] ∷ []; states = [] ∷ []; limit = limit }) }
    {
        let texts = NumberedSet::new(alloc, 0)?;
        let lists = NumberedSet::new(alloc, 1)?;
        Ok(ScopeTable {
            texts,
            lists,
            limit,
        })
    }

    /// Says that the numbers are a numbering, and that with a list its names and all its fronts have
    /// numbers: it does nothing.
    pub fn prove_known(&self)
        ensures numbering { IsNumbering self.now }
        ensures entries { HasPathEntries self.now }
        ensures states { self.now.states ≡ [] ∷ [] }
    {
        let _ = &self.limit;
    }

    /// The greatest number of texts, and of lists.
    pub fn limit(&self) -> u32
        ensures { result ≡ self.now.limit }
    {
        self.limit
    }

    /// How many texts there are.
    pub fn text_count(&self) -> u32
        ensures { result ≡ length self.now.texts }
    {
        self.texts.taken()
    }

    /// How many lists there are, the empty one among them.
    pub fn list_count(&self) -> u32
        ensures { result ≡ length self.now.paths }
    {
        self.lists.taken()
    }

    /// The number of a text, which is kept where it is new and fewer than `limit` texts are there. A
    /// text that has a number is never refused.
    pub fn text_within(&mut self, text: &Name, limit: u32) -> Result<TextId, TableFault>
        requires { limit ≤ self.old.limit }
        ensures ok { IfOk result (λ id. slice_get self.new.texts id.0 ≡ Some text.now) }
        ensures grows { GrowsWithin (only_text text.now) self.old self.new }
        ensures limit { KeepsLimits limit self.old self.new }
        ensures err { OnErr result (self.new ≡ self.old) }
        ensures absent { OnErr result (¬ Contains self.old.texts text.now) }
        ensures full { IfErr result (IsFullFor limit (only_text text.now) self.new) }
    {
        let number = match intern_text(&mut self.texts, text, limit) {
            Ok(number) => number,
            Err(fault) => return Err(fault),
        };
        Ok(TextId(number))
    }

    /// The number of a text. `TableFull` comes exactly where it is not there and the texts are as many
    /// as the limit.
    pub fn text(&mut self, text: &Name) -> Result<TextId, TableFault>
        ensures ok { IfOk result (λ id. slice_get self.new.texts id.0 ≡ Some text.now) }
        ensures grows { GrowsWithin (only_text text.now) self.old self.new }
        ensures err { OnErr result (self.new ≡ self.old) }
        ensures absent { OnErr result (¬ Contains self.old.texts text.now) }
        ensures full { IfErr result (IsFullForSome (only_text text.now) self.new) }
    {
        self.text_within(text, self.limit)
    }

    /// The text of a number. It takes no memory.
    pub fn text_of(&self, id: TextId) -> &Name
        requires { id.0 < length self.now.texts }
        ensures { result.now ≡ text_at self.now id }
    {
        self.texts.value(id.0)
    }

    /// The number of the list with a name added at its end, which is kept where it is new and fewer
    /// than `limit` lists are there. A list that has a number is never refused.
    pub fn push_within(
        &mut self,
        list: ScopeList,
        name: TextId,
        limit: u32,
    ) -> Result<ScopeList, TableFault>
        requires list { list.0 < length self.old.paths }
        requires name { name.0 < length self.old.texts }
        requires limit { limit ≤ self.old.limit }
        ensures ok { IfOk result (λ id. slice_get self.new.paths id.0 ≡ Some (longer_path self.old list name)) }
        ensures grows { GrowsWithin (only_path (longer_path self.old list name)) self.old self.new }
        ensures limit { KeepsLimits limit self.old self.new }
        ensures err { OnErr result (self.new ≡ self.old) }
        ensures absent { OnErr result (¬ Contains self.old.paths (longer_path self.old list name)) }
        ensures full { IfErr result (IsFullFor limit (only_path (longer_path self.old list name)) self.new) }
    {
        let number = match self.lists.intern(NameLink { name, rest: list }, limit) {
            Ok(number) => number,
            Err(fault) => return Err(fault),
        };
        Ok(ScopeList(number))
    }

    /// The number of the list with a name added at its end. `TableFull` comes exactly where it is not
    /// there and the lists are as many as the limit.
    pub fn push(&mut self, list: ScopeList, name: TextId) -> Result<ScopeList, TableFault>
        requires list { list.0 < length self.old.paths }
        requires name { name.0 < length self.old.texts }
        ensures ok { IfOk result (λ id. slice_get self.new.paths id.0 ≡ Some (longer_path self.old list name)) }
        ensures grows { GrowsWithin (only_path (longer_path self.old list name)) self.old self.new }
        ensures err { OnErr result (self.new ≡ self.old) }
        ensures absent { OnErr result (¬ Contains self.old.paths (longer_path self.old list name)) }
        ensures full { IfErr result (IsFullForSome (only_path (longer_path self.old list name)) self.new) }
    {
        self.push_within(list, name, self.limit)
    }

    /// The last name of a list and the list before it; none at the empty list. It takes no memory.
    pub fn last(&self, list: ScopeList) -> Option<(TextId, ScopeList)>
        requires { list.0 < length self.now.paths }
        ensures parts { MatchOption result (path_at self.now list ≡ []) (λ p.
            path_at self.now list ≡ longer_path self.now p.1 p.0) }
        ensures in_range { MatchOption result (list.0 ≡ 0) (λ p.
            (p.0.0 < length self.now.texts) × (p.1.0 < length self.now.paths)) }
        ensures before { MatchOption result (list.0 ≡ 0) (λ p. p.1.0 < list.0) }
    {
        self.prove_known();
        if list.0 == 0 {
            return None;
        }
        let link = *self.lists.value(list.0);
        Some((link.name, link.rest))
    }

    /// The number of the list with a text added at its end, as `text_within` and `push_within` give it.
    /// Where list and text have numbers it is never refused. After a refusal the text may be there.
    pub fn push_text(
        &mut self,
        list: ScopeList,
        text: &Name,
        limit: u32,
    ) -> Result<ScopeList, TableFault>
        requires list { list.0 < length self.old.paths }
        requires limit { limit ≤ self.old.limit }
        ensures ok { IfOk result (λ id. slice_get self.new.paths id.0 ≡ Some (path_at self.old list ++ text.now ∷ [])) }
        ensures grows { GrowsWithin (text_and_path text.now (path_at self.old list ++ text.now ∷ [])) self.old self.new }
        ensures limit { KeepsLimits limit self.old self.new }
        ensures absent { OnErr result (¬ (Contains self.old.texts text.now × Contains self.old.paths (path_at self.old list ++ text.now ∷ []))) }
        ensures full { IfErr result (IsFullFor limit (text_and_path text.now (path_at self.old list ++ text.now ∷ [])) self.new) }
    {
        let name = match self.text_within(text, limit) {
            Ok(name) => name,
            Err(fault) => return Err(fault),
        };
        self.push_within(list, name, limit)
    }

    /// The number of a whole list, with the numbers of all that it needs; each is kept where it is new
    /// and fewer than `limit` of its kind are there. A list that has a number is never refused. After
    /// a refusal the table may have grown.
    pub fn path_within(&mut self, path: &ScopePath, limit: u32) -> Result<ScopeList, TableFault>
        requires { limit ≤ self.old.limit }
        ensures ok { IfOk result (λ id. slice_get self.new.paths id.0 ≡ Some path.now) }
        ensures grows { GrowsWithin (path_entries path.now) self.old self.new }
        ensures limit { KeepsLimits limit self.old self.new }
        ensures absent { OnErr result (¬ Contains self.old.paths path.now) }
        ensures full { IfErr result (IsFullFor limit (path_entries path.now) self.new) }
    {
        self.prove_known();
        let mut list = ScopeList(0);
        for name in path.as_slice() {
            list = match self.push_text(list, name, limit) {
                Ok(longer) => longer,
                Err(fault) => return Err(fault),
            };
        }
        Ok(list)
    }

    /// The names of a list, the outermost first.
    pub fn names(&self, list: ScopeList) -> Result<ScopePath, OutOfMemory>
        requires { list.0 < length self.now.paths }
        ensures { IfOk result (λ path. path ≡ path_at self.now list) }
    {
        let mut names = Vec::new(self.texts.allocator());
        let mut rest = list;
        while let Some((name, before)) = self.last(rest) {
            names.push(self.text_of(name).copy()?)?;
            rest = before;
        }
        names.reverse();
        Ok(ScopePath::new(names))
    }
}
