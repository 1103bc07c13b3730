//! The two halves of a queue: at one values are pushed, at the other they are popped.
//!
//! They are proved for any rule of which no more is known than what it lets a pass do (`Keeps`). So that the queue was full
//! or empty can be known here only from the queue itself, at a step of the call.

use crate::log::Log;
use crate::rules::{Keeps, Pop, Push};
use crossbeam_queue::{Pass, RuledArrayQueue};
use std::alloc::Global;
use std::marker::Model;
use std::sync::{Arc, Wait};

/// A queue of items that both halves share.
pub type Shared<X, S, P> = Arc<RuledArrayQueue<X, Log<X, S>, P>, Global>;

/// The half that pushes.
#[derive(Drop)]
pub struct Pusher<X, S, P: Keeps<X, S>> {
    pub(crate) queue: Shared<X, S, P>,
    pub(crate) pass: Pass<X, Log<X, S>>,
    pub(crate) count: u64,
}

impl<X, S, P: Keeps<X, S>> Model for Pusher<X, S, P> {
    ghost use Rattle.std.specs.Prelude.{◌≡◌, true, false, []};
    ghost use Rattle.std.specs.Arc.{arc_value};
    ghost use Rattle.crossbeam_queue.specs.Passes.{view as seen, IsPassOf, ruled_capacity};
    ghost use Rattle.tm_wire.specs.Passed.{log};
    ghost use Rattle.tm_wire.specs.Ends.{Half, counted};

    ghost Value = { Half X S };

    ghost view = { λ a. record { queue = a.pass.table_id; room = ruled_capacity (arc_value a.queue); known = (seen a.pass).known; moved = (seen a.pass).pushed } };

    ghost invariant = { λ a. IsPassOf (arc_value a.queue) a.pass
        × (seen a.pass ≡ log true false (seen a.pass).known (seen a.pass).pushed [])
        × (a.count ≡ counted (seen a.pass).pushed) };
}

impl<X, S, P: Keeps<X, S>> Pusher<X, S, P> {
    ghost use Rattle.std.specs.Prelude.{◌≡◌, true, false, [], ◌∷◌, ◌++◌, MatchResult};
    ghost use Rattle.tm_wire.specs.Passed.{log, HeldUnder};
    ghost use Rattle.tm_wire.specs.Ends.{Half};

    /// The value comes back only where the queue was full at a step of the call.
    pub fn push<R: Wait>(&mut self, rt: &R, value: X) -> Result<(), X>
        requires { P.fit self.old.known value }
        ensures { MatchResult result
            (λ _. self.new ≡ record self.old { moved = self.old.moved ++ value ∷ [] })
            (λ back. (back ≡ value) × (self.new ≡ self.old) × HeldUnder P.holds self.old.room (log true false self.old.known self.old.moved [])) }
    {
        match self.queue.push_as::<Push<P>, R>(rt, &mut self.pass, value) {
            Ok(()) => {
                self.count = self.count.saturating_add(1);
                Ok(())
            }
            Err(value) => Err(value),
        }
    }
}

/// The half that pops.
#[derive(Drop)]
pub struct Popper<X, S, P: Keeps<X, S>> {
    pub(crate) queue: Shared<X, S, P>,
    pub(crate) pass: Pass<X, Log<X, S>>,
    pub(crate) count: u64,
}

impl<X, S, P: Keeps<X, S>> Model for Popper<X, S, P> {
    ghost use Rattle.std.specs.Prelude.{◌≡◌, true, false, []};
    ghost use Rattle.std.specs.Arc.{arc_value};
    ghost use Rattle.crossbeam_queue.specs.Passes.{view as seen, IsPassOf, ruled_capacity};
    ghost use Rattle.tm_wire.specs.Passed.{log};
    ghost use Rattle.tm_wire.specs.Ends.{Half, counted};

    ghost Value = { Half X S };

    ghost view = { λ a. record { queue = a.pass.table_id; room = ruled_capacity (arc_value a.queue); known = (seen a.pass).known; moved = (seen a.pass).popped } };

    ghost invariant = { λ a. IsPassOf (arc_value a.queue) a.pass
        × (seen a.pass ≡ log false true (seen a.pass).known [] (seen a.pass).popped)
        × (a.count ≡ counted (seen a.pass).popped) };
}

impl<X, S, P: Keeps<X, S>> Popper<X, S, P> {
    ghost use Rattle.std.specs.Prelude.{◌≡◌, true, false, [], ◌∷◌, ◌++◌, MatchOption};
    ghost use Rattle.tm_wire.specs.Passed.{log, HeldUnder};
    ghost use Rattle.tm_wire.specs.Ends.{Half};

    /// The oldest value that is in the queue. None comes only where the queue was empty at a step of the call.
    pub fn pop<R: Wait>(&mut self, rt: &R) -> Option<X>
        ensures { MatchOption result
            ((self.new ≡ self.old) × HeldUnder P.holds 0 (log false true self.old.known [] self.old.moved))
            (λ value. (self.new ≡ record self.old { moved = self.old.moved ++ value ∷ [] }) × P.fit self.old.known value) }
    {
        match self.queue.pop_as::<Pop<P>, R>(rt, &mut self.pass) {
            Some(value) => {
                self.count = self.count.saturating_add(1);
                Some(value)
            }
            None => None,
        }
    }
}
