//! A range of a vector replaced, in room that is there.
//!
//! Lines, and what is kept of each, stand beside one another and change alike: the same range of both is replaced
//! by other items. A change takes its memory before anything is written, so the replacing itself takes none.
#![tactic(auto)]

ghost use Rattle.std.specs.Prelude.{◌≡◌, ◌+◌, ◌≤◌, ◌++◌, [], take, drop, vec_len, vec_capacity};

/// Replaces the `old` items from `first` on by the added ones, which leave their vector. It takes no memory.
///
/// As many items as were there change places, and nothing else moves. Otherwise the items behind the range are moved
/// twice.
pub fn replace_range<T: Drop>(items: &mut Vec<T>, first: usize, old: usize, added: &mut Vec<T>)
    requires range { first + old ≤ vec_len items.old }
    requires room { vec_len items.old + vec_len added.old ≤ vec_capacity items.old }
    ensures { items.new.items ≡ take first items.old.items ++ (added.old.items ++ drop old (drop first items.old.items)) }
{
    if old == added.len() {
        items[first..first + old].swap_with_slice(added.as_mut_slice());
    } else {
        move_in(items, first, old, added);
    }
}

/// Turns the items from `first` on: the first `mid` of them go to the end.
fn turn<T: Drop>(items: &mut Vec<T>, first: usize, mid: usize)
    requires { first + mid ≤ vec_len items.old }
    ensures items { items.new.items ≡ take first items.old.items ++ (drop mid (drop first items.old.items) ++ take mid (drop first items.old.items)) }
    ensures len { vec_len items.new ≡ vec_len items.old }
    ensures room { vec_capacity items.new ≡ vec_capacity items.old }
{
    items[first..].rotate_left(mid);
}

/// Moves items to the end, in room that is there.
fn append_in_room<T: Drop>(items: &mut Vec<T>, added: &mut Vec<T>)
    requires { vec_len items.old + vec_len added.old ≤ vec_capacity items.old }
    ensures items { items.new.items ≡ items.old.items ++ added.old.items }
    ensures len { vec_len items.new ≡ vec_len items.old + vec_len added.old }
{
    if items.append(added).is_err() {
        unreachable!()
    }
}

/// The same where the items behind the range move: they change places with the range, which is dropped, and then
/// with the added ones.
fn move_in<T: Drop>(items: &mut Vec<T>, first: usize, old: usize, added: &mut Vec<T>)
    requires range { first + old ≤ vec_len items.old }
    requires room { vec_len items.old + vec_len added.old ≤ vec_capacity items.old }
    ensures { items.new.items ≡ take first items.old.items ++ (added.old.items ++ drop old (drop first items.old.items)) }
{
    let behind = items.len() - first - old;
    turn(items, first, old);
    items.truncate(first + behind);
    append_in_room(items, added);
    turn(items, first, behind);
}
