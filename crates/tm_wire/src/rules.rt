//! The rule of a queue, for any kind of item, and what it lets a pass do.
ghost use Rattle.std.specs.Prelude.{◌≡◌, ℕ, List, true, false, [], ◌∷◌, ◌++◌};
ghost use Rattle.crossbeam_queue.specs.Fifo.{Pushes, Pops};
ghost use Rattle.tm_wire.specs.declared.log.Log.{Log};
ghost use Rattle.tm_wire.specs.Passed.{log, KnowsRule};

use crate::log::Log;
use crossbeam_queue::protocol::{Join, Lesson, Outcome, Protocol, Split};
use std::collections::LinkedList;
use std::marker::{Brand, PhantomData};
use tm_defs::tokenizer::LineTok;
use tm_rebase::batches::Batch;
use tm_rebase::orders::Order;

/// Which items may be pushed, by what both ends of a queue know.
pub trait Fits<X, S> {
    ghost fit: { S → X → Type 0 };

    /// What a pass knows before its queue is cut into ends.
    ghost unknown: { S };
}

/// Any order may be sent.
pub struct AnyOrder;

impl Fits<Order, ()> for AnyOrder {
    ghost use Rattle.tm_wire.specs.Ends.{IsAnyOrder};

    ghost fit = { IsAnyOrder };

    ghost unknown = { tt };
}

/// A batch may be posted that is right for the settings.
pub struct RightBatch<T> {
    of: PhantomData<T>,
}

impl<T: LineTok> Fits<Batch, LinkedList<T>> for RightBatch<T> {
    ghost use Rattle.std.specs.Prelude.{[]};
    ghost use Rattle.tm_wire.specs.Ends.{IsRightFor};

    ghost fit = { IsRightFor T.tokenized T.plain };

    ghost unknown = { [] };
}

/// Items arrive in the order in which they were pushed, and each is fit.
pub struct InOrder<F> {
    of: PhantomData<F>,
}

impl<X, S, F: Fits<X, S>> Protocol<X, Log<X, S>> for InOrder<F> {
    ghost use Rattle.std.specs.Prelude.{true, []};
    ghost use Rattle.tm_wire.specs.Passed.{log, Passed};

    ghost holds = { Passed F.fit };

    ghost first = { log true true F.unknown [] [] };
}

/// A rule of which only this is known: a pass with the right to push may push what is fit, one with the right to pop may
/// pop, and what is popped is fit.
pub trait Keeps<X, S>: Protocol<X, Log<X, S>> {
    ghost fit: { S → X → Type 0 };

    ghost pushes: { (n port : ℕ) (v : Log X S) (x : X) → v.pushes ≡ true → fit v.known x
        → Pushes Self.holds n port v x (λ w. w ≡ log v.pushes v.pops v.known (v.pushed ++ x ∷ []) v.popped) };

    ghost pops: { (port : ℕ) (v : Log X S) → v.pops ≡ true
        → Pops Self.holds port v (λ x w. (w ≡ log v.pushes v.pops v.known v.pushed (v.popped ++ x ∷ [])) × fit v.known x) };
}

impl<X, S, F: Fits<X, S>> Keeps<X, S> for InOrder<F> {
    ghost use Rattle.tm_wire.specs.inner.Moves.{pushes, pops};

    ghost fit = { F.fit };

    ghost pushes = { pushes F.fit };

    ghost pops = { pops F.fit };
}

/// A push. Where it is refused, the rule is known of the queue as it was.
pub struct Push<P> {
    of: PhantomData<P>,
}

impl<X, S, P: Keeps<X, S>> Outcome<X, Log<X, S>> for Push<P> {
    ghost then = { λ v x w. w ≡ log v.pushes v.pops v.known (v.pushed ++ x ∷ []) v.popped };
}

impl<X, S, P: Keeps<X, S>> Lesson<X, Log<X, S>> for Push<P> {
    ghost fact = { KnowsRule P.holds };
}

/// A pop, of an item that is fit. Where there is none, the rule is known of the queue as it was.
pub struct Pop<P> {
    of: PhantomData<P>,
}

impl<X, S, P: Keeps<X, S>> Outcome<X, Log<X, S>> for Pop<P> {
    ghost then = { λ v x w. (w ≡ log v.pushes v.pops v.known v.pushed (v.popped ++ x ∷ [])) × P.fit v.known x };
}

impl<X, S, P: Keeps<X, S>> Lesson<X, Log<X, S>> for Pop<P> {
    ghost fact = { KnowsRule P.holds };
}

/// What both ends of a queue are to know, picked where the queue is made.
pub trait Chosen<S> {
    ghost known: { S };
}

impl Chosen<()> for Brand {
    ghost known = { tt };
}

impl<T> Chosen<LinkedList<T>> for Brand {
    ghost use Rattle.std.specs.Prelude.{[]};

    ghost known = { [] };
}

/// The one pass of a new queue becomes one that pushes and one that pops, which know the same.
pub struct Apart<K> {
    of: PhantomData<K>,
}

impl<X, S, K: Chosen<S>> Split<Log<X, S>> for Apart<K> {
    ghost use Rattle.std.specs.Prelude.{true, false, []};
    ghost use Rattle.tm_wire.specs.Passed.{log};

    ghost left = { λ v. log true false K.known [] [] };

    ghost right = { λ v. log false true K.known [] [] };
}

/// The two passes become one again, which knows what was pushed and what was popped.
pub struct Together<F> {
    of: PhantomData<F>,
}

impl<X, S, F: Fits<X, S>> Join<Log<X, S>> for Together<F> {
    ghost use Rattle.std.specs.Prelude.{true, false, []};
    ghost use Rattle.tm_wire.specs.Passed.{log};

    ghost both = { λ v w. log true true v.known v.pushed w.popped };

    ghost spent = { log false false F.unknown [] [] };
}

/// What was pushed is what was popped, and then what the queue holds.
pub struct Total;

impl<X, S> Lesson<X, Log<X, S>> for Total {
    ghost use Rattle.std.specs.Prelude.{◌≡◌, ◌++◌};

    ghost fact = { λ v items. v.pushed ≡ v.popped ++ items };
}
