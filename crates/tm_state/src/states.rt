//! States by number.
//!
//! A state is numbered by its innermost frame and the number of the state without it, so a state of any
//! depth takes one link, and two states are compared by their numbers alone. A link leads to a lower
//! number, so of two states the one with the higher number is never a front of the other.
ghost use Rattle.std.specs.Prelude.{◌≡◌, ◌↔◌, ◌<◌, ◌≤◌, [], ◌∷◌, ◌++◌, length, min, Some, Err, slice_get, IfOk, OnOk, OnErr, IfErr, IsTrue, MatchOption, Contains};
ghost use Rattle.tm_defs.specs.Tables.{GrowsWithin, only_text, only_path, only_state, longer_path, deeper_state, IsFrameOf, text_at, path_at, state_at, frame_at};
ghost use Rattle.tm_defs.specs.declared.tables.TableFault.TheVariants.{TableFull};
ghost use Rattle.tm_scope.specs.Entries.{HasEntries, KeepsLimits, IsFullFor};
ghost use Rattle.tm_state.specs.Entries.{frame_entries, frame_and_state, state_entries, IsClosed, FrontsComeFirst, HasRoomFor};

use crate::frames::frame_within;
use std::alloc::Global;
use std::marker::Model;
use tm_defs::frames::{Frame, FrameData, ScopeList, StateData, StateId, TextId};
use tm_defs::memory::OutOfMemory;
use tm_defs::tables::{States, TableFault};
use tm_defs::texts::Name;
use tm_scope::numbered::{Exact, NumberedSet};
use tm_scope::scopes::ScopeTable;

/// A state by its innermost frame and the state without it.
#[derive(Clone, Copy, Debug, PartialEq, Eq, Hash)]
pub struct FrameLink {
    pub frame: Frame,
    pub rest: StateId,
}

impl Exact for FrameLink {
    ghost use Rattle.std.proofs.Common.{rules};

    ghost one_value = { Prim.search rules };
}

/// Texts, scope lists and states by number, at most `limit` of each. List 0 is the empty list, and state
/// 0 the opening state.
#[derive(Drop)]
pub struct StateTable {
    scopes: ScopeTable,
    states: NumberedSet<FrameLink>,
}

impl Model for StateTable {
    ghost use Rattle.tm_defs.specs.Tables.{Tables};
    ghost use Rattle.tm_state.specs.States.{tables_of, AreStates};

    ghost Value = { Tables };

    ghost view = { λ a. tables_of a.scopes a.states.values };

    ghost invariant = { λ a. AreStates a.scopes a.states };
}

impl States for StateTable {
    ghost tables = { λ t. t };

    fn prove_known(&self) {
        let _ = &self.states;
        self.scopes.prove_known();
    }

    fn text(&mut self, text: &Name) -> Result<TextId, TableFault> {
        self.scopes.text(text)
    }

    fn text_of(&self, id: TextId) -> &Name {
        self.scopes.text_of(id)
    }

    fn push(&mut self, list: ScopeList, name: TextId) -> Result<ScopeList, TableFault> {
        self.scopes.push(list, name)
    }

    fn last(&self, list: ScopeList) -> Option<(TextId, ScopeList)> {
        self.scopes.last(list)
    }

    fn intern(&mut self, frame: Frame, parent: StateId) -> Result<StateId, TableFault> {
        let limit = self.limit();
        let result = self.intern_within(frame, parent, limit);
        self.prove_known();
        result
    }

    fn top(&self, state: StateId) -> Option<(Frame, StateId)> {
        self.prove_known();
        if state.0 == 0 {
            return None;
        }
        Some(self.innermost(state))
    }
}

impl StateTable {
    /// A table without texts that has the empty list and the opening state alone, with its first room.
    pub fn new(alloc: Global, limit: u32) -> Result<Self, OutOfMemory>
        requires { 0 < limit }
        ensures { IfOk result (λ table. table ≡ record { texts = []; paths = [] ∷ []; states = [] ∷ []; limit = limit }) }
    {
        let scopes = ScopeTable::new(alloc, limit)?;
        let states = NumberedSet::new(alloc, 1)?;
        Ok(StateTable { scopes, states })
    }

    /// Says that with a state its fronts, its scope lists, their fronts and all their texts have numbers,
    /// and with a list its names and its fronts; and that a front has no higher number than its state. It
    /// does nothing.
    pub fn prove_closed(&self)
        ensures entries { IsClosed self.now }
        ensures order { FrontsComeFirst self.now }
    {
        let _ = &self.states;
        self.scopes.prove_known();
    }

    /// The greatest number of texts, of lists and of states.
    pub fn limit(&self) -> u32
        ensures { result ≡ self.now.limit }
    {
        self.scopes.limit()
    }

    /// How many texts there are.
    pub fn text_count(&self) -> u32
        ensures { result ≡ length self.now.texts }
    {
        self.scopes.text_count()
    }

    /// How many lists there are, the empty one among them.
    pub fn list_count(&self) -> u32
        ensures { result ≡ length self.now.paths }
    {
        self.scopes.list_count()
    }

    /// How many states there are, the opening one among them.
    pub fn state_count(&self) -> u32
        ensures { result ≡ length self.now.states }
    {
        self.states.taken()
    }

    /// The number of the state with a frame added as its innermost, which is kept where it is new and
    /// fewer than `limit` states are there. A state that has a number is never refused.
    pub fn intern_within(
        &mut self,
        frame: Frame,
        parent: StateId,
        limit: u32,
    ) -> Result<StateId, TableFault>
        requires frame { IsFrameOf self.old frame }
        requires parent { parent.0 < length self.old.states }
        requires limit { limit ≤ self.old.limit }
        ensures ok { IfOk result (λ id. slice_get self.new.states id.0 ≡ Some (deeper_state self.old parent frame)) }
        ensures grows { GrowsWithin (only_state (deeper_state self.old parent frame)) self.old self.new }
        ensures limit { KeepsLimits limit self.old self.new }
        ensures err { OnErr result (self.new ≡ self.old) }
        ensures absent { OnErr result (¬ Contains self.old.states (deeper_state self.old parent frame)) }
        ensures full { IfErr result (IsFullFor limit (only_state (deeper_state self.old parent frame)) self.new) }
    {
        self.scopes.prove_known();
        let link = FrameLink {
            frame,
            rest: parent,
        };
        let number = match self.states.intern(link, limit) {
            Ok(number) => number,
            Err(fault) => return Err(fault),
        };
        Ok(StateId(number))
    }

    /// The innermost frame of a state other than the opening one, and the state without it, whose number
    /// is lower. It takes no memory.
    pub fn innermost(&self, state: StateId) -> (Frame, StateId)
        requires some { 0 < state.0 }
        requires state { state.0 < length self.now.states }
        ensures parts { state_at self.now state ≡ deeper_state self.now result.1 result.0 }
        ensures frame { IsFrameOf self.now result.0 }
        ensures before { result.1.0 < state.0 }
    {
        let link = *self.states.value(state.0);
        (link.frame, link.rest)
    }

    /// Whether two states are equal: all frames agree in all five parts. It takes no memory.
    pub fn same(&self, a: StateId, b: StateId) -> bool
        requires a { a.0 < length self.now.states }
        requires b { b.0 < length self.now.states }
        ensures { IsTrue result ↔ (state_at self.now a ≡ state_at self.now b) }
    {
        self.prove_known();
        a == b
    }

    /// A frame as plain data.
    pub fn frame_data(&self, frame: Frame) -> Result<FrameData, OutOfMemory>
        requires { IsFrameOf self.now frame }
        ensures { IfOk result (λ plain. plain ≡ frame_at self.now frame) }
    {
        let end = match frame.end {
            Some(end) => Some(self.scopes.text_of(end).copy()?),
            None => None,
        };
        let names = self.scopes.names(frame.names)?;
        let contents = self.scopes.names(frame.contents)?;
        Ok(FrameData {
            rule: frame.rule,
            end,
            names,
            contents,
            at_eol: frame.at_eol,
        })
    }

    /// The state as plain data, the outermost frame first.
    pub fn frames(&self, state: StateId) -> Result<StateData, OutOfMemory>
        requires { state.0 < length self.now.states }
        ensures { IfOk result (λ plain. plain ≡ state_at self.now state) }
    {
        let mut frames = Vec::new(self.states.allocator());
        let mut rest = state;
        self.prove_known();
        while rest.0 != 0 {
            let (frame, before) = self.innermost(rest);
            frames.push(self.frame_data(frame)?)?;
            rest = before;
        }
        frames.reverse();
        Ok(StateData::new(frames))
    }

    /// Where the table takes its memory.
    pub(crate) fn allocator(&self) -> Global {
        self.states.allocator()
    }

    /// The number of the state with a plain frame added as its innermost, with the numbers of all that the
    /// frame needs; each is kept where it is new and fewer than `limit` of its kind are there. Where all of
    /// it has numbers it is never refused. After a refusal the table may have grown.
    pub fn with_frame(
        &mut self,
        parent: StateId,
        frame: &FrameData,
        limit: u32,
    ) -> Result<StateId, TableFault>
        requires parent { parent.0 < length self.old.states }
        requires limit { limit ≤ self.old.limit }
        ensures ok { IfOk result (λ id. slice_get self.new.states id.0 ≡ Some (state_at self.old parent ++ frame.now ∷ [])) }
        ensures grows { GrowsWithin (frame_and_state frame.now (state_at self.old parent ++ frame.now ∷ [])) self.old self.new }
        ensures limit { KeepsLimits limit self.old self.new }
        ensures absent { OnErr result (¬ HasEntries (frame_and_state frame.now (state_at self.old parent ++ frame.now ∷ [])) self.old) }
        ensures full { IfErr result (IsFullFor limit (frame_and_state frame.now (state_at self.old parent ++ frame.now ∷ [])) self.new) }
    {
        let number = match frame_within(&mut self.scopes, frame, limit) {
            Ok(number) => number,
            Err(fault) => return Err(fault),
        };
        self.intern_within(number, parent, limit)
    }

    /// The number of the state with these frames added, as `with_frame` adds one.
    pub fn with_frames(
        &mut self,
        state: StateId,
        frames: &[FrameData],
        limit: u32,
    ) -> Result<StateId, TableFault>
        requires state { state.0 < length self.old.states }
        requires limit { limit ≤ self.old.limit }
        ensures ok { IfOk result (λ id. slice_get self.new.states id.0 ≡ Some (state_at self.old state ++ frames.now)) }
        ensures grows { GrowsWithin (state_entries (state_at self.old state ++ frames.now)) self.old self.new }
        ensures limit { KeepsLimits limit self.old self.new }
        ensures absent { OnErr result (¬ Contains self.old.states (state_at self.old state ++ frames.now)) }
        ensures full { IfErr result (IsFullFor limit (state_entries (state_at self.old state ++ frames.now)) self.new) }
    {
        self.prove_closed();
        let mut deeper = state;
        for frame in frames {
            deeper = match self.with_frame(deeper, frame, limit) {
                Ok(next) => next,
                Err(fault) => return Err(fault),
            };
        }
        Ok(deeper)
    }

    /// The number of a plain state, with the numbers of all that it needs. Each is kept where it is new and
    /// fewer of its kind are there than the lesser of `limit` and the table's own, which `TableFull` names.
    /// A state that has a number is never refused, and changes nothing. After a refusal the table may have
    /// grown.
    pub fn put(&mut self, state: &StateData, limit: u32) -> Result<StateId, TableFault>
        ensures ok { IfOk result (λ id. slice_get self.new.states id.0 ≡ Some state.now) }
        ensures grows { GrowsWithin (state_entries state.now) self.old self.new }
        ensures limit { KeepsLimits (min limit self.old.limit) self.old self.new }
        ensures absent { OnErr result (¬ Contains self.old.states state.now) }
        ensures full { IfErr result (IsFullFor (min limit self.old.limit) (state_entries state.now) self.new) }
        ensures room { OnOk result (HasRoomFor (min limit self.old.limit) (state_entries state.now) self.old) }
        ensures no_room { result ≡ Err (TableFull (min limit self.old.limit)) → ¬ HasRoomFor (min limit self.old.limit) (state_entries state.now) self.old }
        ensures known { Contains self.old.states state.now → self.new ≡ self.old }
    {
        self.prove_closed();
        self.prove_known();
        let limit = limit.min(self.limit());
        let result = self.with_frames(StateId(0), state.as_slice(), limit);
        self.prove_closed();
        self.prove_known();
        result
    }
}
