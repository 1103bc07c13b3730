//! How the ends are made, and how they are given up.
ghost use Rattle.std.specs.Prelude.{◌≡◌, ◌<◌, [], IfOk};
ghost use Rattle.tm_wire.specs.Ends.{Half, Front, Back, counted, WereHandedOver};

use crate::ends::{BackEnd, FrontEnd};
use crate::halves::{Popper, Pusher};
use crate::log::Log;
use crate::rules::{AnyOrder, Apart, Chosen, Fits, InOrder, RightBatch, Together, Total};
use crossbeam_queue::RuledArrayQueue;
use std::alloc::Global;
use std::collections::LinkedList;
use std::marker::Brand;
use std::sync::{Arc, Wait};
use tm_defs::memory::OutOfMemory;
use tm_defs::tokenizer::LineTok;
use tm_rebase::batches::Batch;
use tm_rebase::orders::Order;

/// The two halves of a new queue, by the rule of an item.
type Halves<X, S, F> = (Pusher<X, S, InOrder<F>>, Popper<X, S, InOrder<F>>);

// The two halves of a new queue, of which both know what was chosen.
fn halves<X: Drop, S, F: Fits<X, S>, K: Chosen<S>>(
    alloc: Global,
    room: usize,
) -> Result<Halves<X, S, F>, OutOfMemory>
    requires { 0 < room }
    ensures pusher { IfOk result (λ two. two.0 ≡ record { queue = two.0.queue; room = room; known = K.known; moved = [] }) }
    ensures popper { IfOk result (λ two. two.1 ≡ two.0) }
{
    let (queue, mut pushing) = RuledArrayQueue::<X, Log<X, S>, InOrder<F>>::ruled(alloc, room)?;
    let popping = queue.another::<Apart<K>>(&mut pushing);
    let queue = Arc::new(alloc, queue)?;
    let same = Arc::try_clone(&queue)?;
    let pusher = Pusher {
        queue,
        pass: pushing,
        count: 0,
    };
    let popper = Popper {
        queue: same,
        pass: popping,
        count: 0,
    };
    Ok((pusher, popper))
}

// The two halves of a new queue of batches, of which both know the settings.
fn settled<T: LineTok, K: Chosen<LinkedList<T>>>(
    alloc: Global,
    settings: &[T],
    room: usize,
) -> Result<Halves<Batch, LinkedList<T>, RightBatch<T>>, OutOfMemory>
    requires settings { settings.now ≡ K.known }
    requires room { 0 < room }
    ensures pusher { IfOk result (λ two. two.0 ≡ record { queue = two.0.queue; room = room; known = settings.now; moved = [] }) }
    ensures popper { IfOk result (λ two. two.1 ≡ two.0) }
{
    let _ = settings;
    halves::<Batch, LinkedList<T>, RightBatch<T>, K>(alloc, room)
}

/// The two ends of two new queues, for at most so many orders and so many batches. Batches are for these settings.
pub fn wire<T: LineTok>(
    alloc: Global,
    settings: &[T],
    orders: usize,
    batches: usize,
) -> Result<(FrontEnd<T>, BackEnd<T>), OutOfMemory>
    requires orders { 0 < orders }
    requires batches { 0 < batches }
    ensures wire { IfOk result (λ ends. (ends.1.wire ≡ ends.0.wire) × (ends.0.wire.order_room ≡ orders) × (ends.0.wire.batch_room ≡ batches)) }
    ensures front { IfOk result (λ ends. (ends.0.settings ≡ settings.now) × (ends.0.sent ≡ []) × (ends.0.taken ≡ [])) }
    ensures back { IfOk result (λ ends. (ends.1.settings ≡ settings.now) × (ends.1.received ≡ []) × (ends.1.posted ≡ [])) }
{
    let (sending, receiving) = halves::<Order, (), AnyOrder, Brand>(alloc, orders)?;
    let (posting, taking) = settled::<T, Brand>(alloc, settings, batches)?;
    let front = FrontEnd {
        orders: sending,
        batches: taking,
    };
    let back = BackEnd {
        orders: receiving,
        batches: posting,
    };
    Ok((front, back))
}

/// How many values each end has moved. A count stays at its greatest value.
#[derive(Clone, Copy, Debug, PartialEq, Eq)]
pub struct Counts {
    pub sent: u64,
    pub received: u64,
    pub posted: u64,
    pub taken: u64,
}

// Gives the two halves of one queue up. How many values were pushed, and how many popped.
fn given_up<X: Drop, S, F: Fits<X, S>, R: Wait>(
    rt: &R,
    pusher: Pusher<X, S, InOrder<F>>,
    popper: Popper<X, S, InOrder<F>>,
) -> (u64, u64)
    requires { popper.queue ≡ pusher.queue }
    ensures counts { (result.0 ≡ counted pusher.moved) × (result.1 ≡ counted popper.moved) }
    ensures order { WereHandedOver pusher.room pusher.moved popper.moved }
{
    let Pusher {
        queue,
        mut pass,
        count: pushed,
    } = pusher;
    let Popper {
        queue: _same,
        pass: popping,
        count: popped,
    } = popper;
    queue.absorb::<Together<F>>(&mut pass, popping);
    queue.len_as::<Total, R>(rt, &mut pass);
    (pushed, popped)
}

/// Gives the two ends of one wire up. What was received is a prefix of what was sent, what was taken one of what was posted,
/// and the rest is what the queues still held.
pub fn finish<T: LineTok, R: Wait>(rt: &R, front: FrontEnd<T>, back: BackEnd<T>) -> Counts
    requires { back.wire ≡ front.wire }
    ensures sent { (result.sent ≡ counted front.sent) × (result.received ≡ counted back.received) }
    ensures posted { (result.posted ≡ counted back.posted) × (result.taken ≡ counted front.taken) }
    ensures orders { WereHandedOver front.wire.order_room front.sent back.received }
    ensures batches { WereHandedOver front.wire.batch_room back.posted front.taken }
{
    let FrontEnd {
        orders: sending,
        batches: taking,
    } = front;
    let BackEnd {
        orders: receiving,
        batches: posting,
    } = back;
    let (sent, received) = given_up::<Order, (), AnyOrder, R>(rt, sending, receiving);
    let (posted, taken) = given_up::<Batch, LinkedList<T>, RightBatch<T>, R>(rt, posting, taking);
    Counts {
        sent,
        received,
        posted,
        taken,
    }
}
