//! The lists of include-only rules.
//!
//! What an include-only rule contributes depends on which others are open, but only where it reaches a
//! cycle of includes. The others are taken in topological order, each behind those among its patterns, so
//! that its list is those of its patterns, one after the other: a chain of includes takes the time of what
//! it contributes, and not of its length at each rule. Those that reach a cycle are flattened each on its own.
ghost use Rattle.std.specs.Prelude.{◌≡◌, ◌<◌, ◌≤◌, ◌++◌, [], ℕ, true, false, length, get_or, slice_get, slice_set, flat_map, IfOk, OnOk, MatchOption, IsTrue};
ghost use Rattle.tm_rules.specs.Candidates.{flattened};
ghost use Rattle.tm_rules.specs.Readers.{is_only, patterns_of};
ghost use Rattle.tm_rules.specs.Sizes.{rule_limit};
ghost use Rattle.tm_rules.specs.inner.Flows.{tasks_of, IsFlow};
ghost use Rattle.tm_rules.specs.inner.Made.{AreKnown, AreMade, AreOrdered, AreThere, OnlyAreListed};
ghost use Rattle.tm_rules.specs.inner.Tasks.{tasks_left};

use crate::candidate::Candidate;
use crate::flow::{Flow, Task, is_marked, only_patterns, push_visits, set_mark};
use sqlite_items::Items;
use std::alloc::Global;
use tm_defs::memory::OutOfMemory;
use tm_defs::rules::Rule;

/// So many rules are visited or closed at most: some seconds of work. Without it rules of a cycle that
/// include one another often and contribute nothing would take a time that doubles with each.
const STEP_LIMIT: u32 = 1_073_741_824;

/// The lists of the include-only rules, as they are made.
#[derive(Drop)]
pub struct OnlyLists<'a> {
    rules: &'a [Rule],
    /// For each rule its list, empty until it is made.
    pub lists: Vec<Items<Candidate>>,
    /// For each rule, whether its list is made.
    made: Vec<bool>,
    /// So many further candidates may be listed.
    pub room: u32,
}

/// The list of a rule, where it is an include-only rule.
fn list_if_only<'a>(
    rules: &[Rule],
    lists: &'a [Items<Candidate>],
    number: u32,
) -> Option<&'a [Candidate]>
    ensures { MatchOption result (is_only (slice_get rules.now number) ≡ false)
        (λ list. (is_only (slice_get rules.now number) ≡ true) × (list.now ≡ get_or lists.now number [])) }
{
    only_patterns(rules, number)?;
    match lists.get(number as usize) {
        Some(list) => Some(list.as_slice()),
        None => Some(&[]),
    }
}

/// Adds what a rule contributes, by its list where it is an include-only rule.
fn push_one(
    rules: &[Rule],
    lists: &[Items<Candidate>],
    list: &mut Vec<Candidate>,
    number: u32,
) -> Result<(), OutOfMemory>
    requires { is_only (slice_get rules.now number) ≡ true → get_or lists.now number [] ≡ flattened rules.now [] number }
    ensures { OnOk result (list.new.items ≡ list.old.items ++ flattened rules.now [] number) }
{
    match list_if_only(rules, lists, number) {
        Some(more) => list.extend_from_slice(more)?,
        None => list.push(Candidate::Start(number))?,
    }
    Ok(())
}

/// Adds what these rules contribute.
pub fn push_all(
    rules: &[Rule],
    lists: &[Items<Candidate>],
    list: &mut Vec<Candidate>,
    numbers: &[u32],
) -> Result<(), OutOfMemory>
    requires { AreThere rules.now lists.now numbers.now }
    ensures { OnOk result (list.new.items ≡ list.old.items ++ flat_map (flattened rules.now []) numbers.now) }
{
    for number in numbers {
        push_one(rules, lists, list, *number)?;
    }
    Ok(())
}

/// How much room is left behind what these rules contribute.
pub fn room_behind(
    rules: &[Rule],
    lists: &[Items<Candidate>],
    numbers: &[u32],
    room: u32,
) -> Result<u32, OutOfMemory>
    ensures { IfOk result (λ left. left ≤ room) }
{
    let mut left = room;
    for number in numbers {
        let length = list_if_only(rules, lists, *number).map_or(1, |list| list.len());
        if length > left as usize {
            return Err(OutOfMemory);
        }
        left -= length as u32;
    }
    Ok(left)
}

/// Marks an include-only rule that has no mark, and puts a closing and visits of its patterns on the tasks.
fn enter(
    rules: &[Rule],
    seen: &mut Vec<bool>,
    tasks: &mut Vec<Task>,
    number: u32,
) -> Result<(), OutOfMemory> {
    if is_marked(seen.as_slice(), number) {
        return Ok(());
    }
    if let Some(patterns) = only_patterns(rules, number) {
        set_mark(seen, number, true);
        tasks.push(Task::Close(number))?;
        push_visits(tasks, patterns)?;
    }
    Ok(())
}

/// How many starts the tasks of a flattening contribute, where they fit the room that is left.
fn count_starts(flow: &mut Flow, room: u32) -> Result<u32, OutOfMemory>
    requires { IsFlow flow.old.rules.now flow.old }
    ensures flow { OnOk result (IsFlow flow.old.rules.now flow.new) }
    ensures ended { OnOk result (tasks_of flow.new ≡ []) }
    ensures fits { IfOk result (λ count. count ≤ room) }
{
    for count in 0..=room {
        if flow.next()?.is_none() {
            return Ok(count);
        }
    }
    Err(OutOfMemory)
}

/// Adds the starts that the tasks of a flattening contribute, of which there are so many at most.
fn push_starts(flow: &mut Flow, list: &mut Vec<Candidate>, most: u32) -> Result<(), OutOfMemory>
    requires { IsFlow flow.old.rules.now flow.old }
    ensures flow { OnOk result (IsFlow flow.old.rules.now flow.new) }
    ensures ended { OnOk result (tasks_of flow.new ≡ []) }
    ensures list { OnOk result (list.new.items ≡ list.old.items ++ tasks_left flow.old.rules.now (tasks_of flow.old)) }
{
    for _taken in 0..=most {
        match flow.next()? {
            Some(number) => list.push(Candidate::Start(number))?,
            None => return Ok(()),
        }
    }
    Err(OutOfMemory)
}

/// What a rule contributes, flattened on its own; it is counted before room is taken.
fn flattened_alone(
    alloc: Global,
    flow: &mut Flow,
    number: u32,
    room: &mut u32,
) -> Result<Items<Candidate>, OutOfMemory>
    requires flow { IsFlow flow.old.rules.now flow.old }
    requires ended { tasks_of flow.old ≡ [] }
    ensures flow { OnOk result (IsFlow flow.old.rules.now flow.new) }
    ensures ended { OnOk result (tasks_of flow.new ≡ []) }
    ensures list { IfOk result (λ list. list ≡ flattened flow.old.rules.now [] number) }
{
    flow.begin(number)?;
    let count = count_starts(flow, *room)?;
    *room -= count;
    let mut list = Vec::with_capacity(alloc, count as usize)?;
    flow.begin(number)?;
    push_starts(flow, &mut list, count)?;
    Ok(Items::from_vec(list))
}

impl<'a> OnlyLists<'a> {
    /// No list yet, and room for so many candidates.
    fn new(alloc: Global, rules: &'a [Rule], room: u32) -> Result<OnlyLists<'a>, OutOfMemory>
        ensures { IfOk result (λ lists. AreOrdered rules.now lists) }
    {
        let mut made = Vec::new(alloc);
        made.resize(rules.len(), false)?;
        let mut lists = Vec::with_capacity(alloc, rules.len())?;
        for _rule in rules {
            lists.push(Items::from_vec(Vec::new(alloc)))?;
        }
        Ok(OnlyLists {
            rules,
            lists,
            made,
            room,
        })
    }

    /// Whether the list of each include-only rule among these is made.
    fn are_known(&self, numbers: &[u32]) -> bool
        ensures { IsTrue result → AreKnown self.now.rules.now self.now.made.items numbers.now }
    {
        for number in numbers {
            let number = *number;
            if only_patterns(self.rules, number).is_some()
                && !is_marked(self.made.as_slice(), number)
            {
                return false;
            }
        }
        true
    }

    /// Keeps the list of a rule.
    fn put(&mut self, number: u32, list: Items<Candidate>)
        requires made { AreMade self.old.rules.now self.old }
        requires within { number < length self.old.rules.now }
        requires list { list ≡ flattened self.old.rules.now [] number }
        ensures rules { self.new.rules ≡ self.old.rules }
        ensures marks { self.new.made.items ≡ slice_set self.old.made.items number true }
        ensures made { AreMade self.old.rules.now self.new }
    {
        self.lists[number as usize] = list;
        set_mark(&mut self.made, number, true);
    }

    /// Makes the list of an include-only rule, if those of all include-only rules among its patterns are made.
    fn make(&mut self, alloc: Global, number: u32) -> Result<(), OutOfMemory>
        requires { AreOrdered self.old.rules.now self.old }
        ensures rules { self.new.rules ≡ self.old.rules }
        ensures ordered { OnOk result (AreOrdered self.old.rules.now self.new) }
    {
        let Some(patterns) = only_patterns(self.rules, number) else {
            return Ok(());
        };
        if is_marked(self.made.as_slice(), number) || !self.are_known(patterns) {
            return Ok(());
        }
        let left = room_behind(self.rules, self.lists.as_slice(), patterns, self.room)?;
        let mut list = Vec::with_capacity(alloc, (self.room - left) as usize)?;
        push_all(self.rules, self.lists.as_slice(), &mut list, patterns)?;
        self.room = left;
        self.put(number, Items::from_vec(list));
        Ok(())
    }

    /// Makes the lists of the include-only rules that reach no cycle: depth first, each when it is closed.
    fn make_acyclic(&mut self, alloc: Global) -> Result<(), OutOfMemory>
        requires few { length self.old.rules.now ≤ rule_limit }
        requires ordered { AreOrdered self.old.rules.now self.old }
        ensures rules { self.new.rules ≡ self.old.rules }
        ensures ordered { OnOk result (AreOrdered self.old.rules.now self.new) }
    {
        let mut seen = Vec::new(alloc);
        seen.resize(self.rules.len(), false)?;
        let mut tasks = Vec::new(alloc);
        for i in 0..self.rules.len() {
            tasks.push(Task::Visit(i as u32))?;
        }
        for _step in 0..STEP_LIMIT {
            match tasks.pop() {
                Some(Task::Visit(number)) => enter(self.rules, &mut seen, &mut tasks, number)?,
                Some(Task::Close(number)) => self.make(alloc, number)?,
                None => return Ok(()),
            }
        }
        Err(OutOfMemory)
    }

    /// Makes the list of an include-only rule that has none yet.
    fn make_alone(&mut self, alloc: Global, flow: &mut Flow, number: u32) -> Result<(), OutOfMemory>
        requires made { AreMade self.old.rules.now self.old }
        requires flow { IsFlow self.old.rules.now flow.old }
        requires ended { tasks_of flow.old ≡ [] }
        ensures rules { self.new.rules ≡ self.old.rules }
        ensures made { OnOk result (AreMade self.old.rules.now self.new) }
        ensures flow { OnOk result (IsFlow self.old.rules.now flow.new) }
        ensures ended { OnOk result (tasks_of flow.new ≡ []) }
        ensures kept { OnOk result ((n : ℕ) → get_or self.old.made.items n false ≡ true → get_or self.new.made.items n false ≡ true) }
        ensures is_made { OnOk result (is_only (slice_get self.old.rules.now number) ≡ true → get_or self.new.made.items number false ≡ true) }
    {
        if only_patterns(self.rules, number).is_none() || is_marked(self.made.as_slice(), number) {
            return Ok(());
        }
        let list = flattened_alone(alloc, flow, number, &mut self.room)?;
        self.put(number, list);
        Ok(())
    }

    /// The lists of all include-only rules, where they have so many candidates at most.
    pub fn build(alloc: Global, rules: &'a [Rule], room: u32) -> Result<OnlyLists<'a>, OutOfMemory>
        requires { length rules.now ≤ rule_limit }
        ensures { IfOk result (λ lists. OnlyAreListed rules.now lists.lists.items) }
    {
        let mut lists = OnlyLists::new(alloc, rules, room)?;
        lists.make_acyclic(alloc)?;
        let mut flow = Flow::new(alloc, rules, STEP_LIMIT)?;
        for i in 0..rules.len() {
            lists.make_alone(alloc, &mut flow, i as u32)?;
        }
        Ok(lists)
    }
}
