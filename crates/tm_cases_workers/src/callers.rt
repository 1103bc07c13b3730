//! The caller that the README of tm_worker shows, proved.
ghost use Rattle.std.specs.Prelude.{◌≡◌, IsFalse};

use tm_defs::tokenizer::LineTok;
use tm_rebase::orders::Order;
use tm_worker::worker::Worker;

/// An order that the worker refuses changes nothing.
pub fn follows<'a, T: LineTok>(worker: &mut Worker<'a, T>, order: Order) -> bool
    ensures { IsFalse result → worker.new ≡ worker.old }
{
    worker.order(order).is_ok()
}
