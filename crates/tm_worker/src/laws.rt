//! Laws of the definitions. Each function is a theorem: its contract is the law.
ghost use Rattle.std.specs.Prelude.{◌≡◌, Bool, List, Some, length, slice_get};
ghost use Rattle.std.specs.List.{AllZip};
ghost use Rattle.tm_machine.specs.Machine.{Side, items_of};
ghost use Rattle.tm_machine.specs.Turns.{opening};
ghost use Rattle.tm_worker.specs.Posted.{fresh_placed};

/// What a worker posts is what the machine of births posts, item by item: where the machine has a birth, the worker has the
/// line number at which this birth stands.
pub fn posts_are_the_machines()
    ensures { (s : Side) (fresh : List Bool) → length s.text.births ≡ length s.text.lines →
        AllZip (λ placed item. (placed.made ≡ item.made) × (slice_get s.text.births placed.place ≡ Some item.birth)) (fresh_placed 0 opening s.text.lines s.entries fresh) (items_of s fresh) }
{}
