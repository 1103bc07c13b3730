//! The ends of the two queues: the foreground's, which sends orders and takes batches, and the worker's, which receives
//! orders and posts batches.

use crate::halves::{Popper, Pusher};
use crate::rules::{AnyOrder, InOrder, RightBatch};
use std::collections::LinkedList;
use std::marker::Model;
use std::sync::Wait;
use tm_defs::tokenizer::LineTok;
use tm_rebase::batches::Batch;
use tm_rebase::orders::Order;

/// The rule of the queue of orders.
pub type Orders = InOrder<AnyOrder>;

/// The rule of the queue of batches.
pub type Batches<T> = InOrder<RightBatch<T>>;

/// The foreground's end.
#[derive(Drop)]
pub struct FrontEnd<T: LineTok> {
    pub(crate) orders: Pusher<Order, (), Orders>,
    pub(crate) batches: Popper<Batch, LinkedList<T>, Batches<T>>,
}

impl<T: LineTok> Model for FrontEnd<T> {
    ghost use Rattle.tm_wire.specs.Ends.{Front, Wire};

    ghost Value = { Front T };

    ghost view = { λ a. record {
      wire = record { orders = a.orders.queue; batches = a.batches.queue; order_room = a.orders.room; batch_room = a.batches.room };
      settings = a.batches.known;
      sent = a.orders.moved;
      taken = a.batches.moved;
    } };
}

impl<T: LineTok> FrontEnd<T> {
    ghost use Rattle.std.specs.Prelude.{◌≡◌, MatchResult, MatchOption, [], ◌∷◌, ◌++◌};
    ghost use Rattle.tm_wire.specs.Ends.{WasFull, WasEmpty, IsAnyOrder, IsRightFor};

    /// The order comes back only where the queue was full at a step of the call.
    pub fn send<R: Wait>(&mut self, rt: &R, order: Order) -> Result<(), Order>
        ensures { MatchResult result
            (λ _. self.new ≡ record self.old { sent = self.old.sent ++ order ∷ [] })
            (λ back. (back ≡ order) × (self.new ≡ self.old) × WasFull IsAnyOrder self.old.wire.order_room tt self.old.sent) }
    {
        self.orders.push(rt, order)
    }

    /// The front batch, which is right for the settings. None comes only where the queue was empty at a step of the call.
    pub fn take<R: Wait>(&mut self, rt: &R) -> Option<Batch>
        ensures { MatchOption result
            ((self.new ≡ self.old) × WasEmpty (IsRightFor T.tokenized T.plain) self.old.settings self.old.taken)
            (λ batch. (self.new ≡ record self.old { taken = self.old.taken ++ batch ∷ [] }) × IsRightFor T.tokenized T.plain self.old.settings batch) }
    {
        self.batches.pop(rt)
    }
}

/// The worker's end.
#[derive(Drop)]
pub struct BackEnd<T: LineTok> {
    pub(crate) orders: Popper<Order, (), Orders>,
    pub(crate) batches: Pusher<Batch, LinkedList<T>, Batches<T>>,
}

impl<T: LineTok> Model for BackEnd<T> {
    ghost use Rattle.tm_wire.specs.Ends.{Back, Wire};

    ghost Value = { Back T };

    ghost view = { λ a. record {
      wire = record { orders = a.orders.queue; batches = a.batches.queue; order_room = a.orders.room; batch_room = a.batches.room };
      settings = a.batches.known;
      received = a.orders.moved;
      posted = a.batches.moved;
    } };
}

impl<T: LineTok> BackEnd<T> {
    ghost use Rattle.std.specs.Prelude.{◌≡◌, MatchResult, MatchOption, [], ◌∷◌, ◌++◌};
    ghost use Rattle.tm_wire.specs.Ends.{WasFull, WasEmpty, IsAnyOrder, IsRightFor};

    /// The front order. None comes only where the queue was empty at a step of the call.
    pub fn receive<R: Wait>(&mut self, rt: &R) -> Option<Order>
        ensures { MatchOption result
            ((self.new ≡ self.old) × WasEmpty IsAnyOrder tt self.old.received)
            (λ order. self.new ≡ record self.old { received = self.old.received ++ order ∷ [] }) }
    {
        self.orders.pop(rt)
    }

    /// The batch comes back only where the queue was full at a step of the call.
    pub fn post<R: Wait>(&mut self, rt: &R, batch: Batch) -> Result<(), Batch>
        requires { IsRightFor T.tokenized T.plain self.old.settings batch }
        ensures { MatchResult result
            (λ _. self.new ≡ record self.old { posted = self.old.posted ++ batch ∷ [] })
            (λ back. (back ≡ batch) × (self.new ≡ self.old) × WasFull (IsRightFor T.tokenized T.plain) self.old.wire.batch_room self.old.settings self.old.posted) }
    {
        self.batches.push(rt, batch)
    }
}
