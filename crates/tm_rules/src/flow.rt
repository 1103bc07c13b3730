//! The flattening of rules, one start after the other.
//!
//! A vector holds the tasks that are left: rules to visit, and include-only rules to close once all
//! behind them is done. A rule that is open contributes nothing. Chains of includes take room in the
//! vector, not on the machine's stack. For the rules `0: [1, 2]`, `1: [0, 2]`, both include-only, and `2`
//! a match rule, the tasks from a visit of 0 are, next one first:
//!
//! ```text
//! visit 0
//! visit 1, visit 2, close 0                      0 is open
//! visit 0, visit 2, close 1, visit 2, close 0    1 is open too; 0 contributes nothing
//! visit 2, close 1, visit 2, close 0             gives the start of 2
//! close 1, visit 2, close 0
//! visit 2, close 0                               gives it again
//! close 0
//! ```
ghost use Rattle.std.specs.Prelude.{◌≡◌, [], ◌++◌, ◌∷◌, true, false, map, get_or, slice_get, slice_set, IfOk, OnOk, MatchOption, Some, None};
ghost use Rattle.tm_rules.specs.Candidates.{flattened};
ghost use Rattle.tm_rules.specs.Readers.{is_only, patterns_of};
ghost use Rattle.tm_rules.specs.inner.Flows.{tasks_of, IsFlow};
ghost use Rattle.tm_rules.specs.inner.Tasks.{opened_by, tasks_left, stacked, found_first, AreMarked};
ghost use Rattle.tm_rules.specs.declared.flow.Task.TheVariants.{Visit};

use std::alloc::Global;
use tm_defs::memory::OutOfMemory;
use tm_defs::rules::Rule;

/// What is to be done next.
#[derive(Clone, Copy)]
pub enum Task {
    Visit(u32),
    /// All within this rule is done.
    Close(u32),
}

/// A flattening on its way.
#[derive(Drop)]
pub struct Flow<'a> {
    rules: &'a [Rule],
    /// For each rule, whether it is open.
    marks: Vec<bool>,
    tasks: Vec<Task>,
    /// So many further tasks may be done.
    steps: u32,
}

/// Puts visits of the rules on top of the tasks, the first one topmost.
pub fn push_visits(tasks: &mut Vec<Task>, numbers: &[u32]) -> Result<(), OutOfMemory>
    ensures { OnOk result (stacked tasks.new.items ≡ map Visit numbers.now ++ stacked tasks.old.items) }
{
    for i in (0..numbers.len()).rev() {
        tasks.push(Task::Visit(numbers[i]))?;
    }
    Ok(())
}

/// Whether a rule is open.
pub fn is_marked(marks: &[bool], number: u32) -> bool
    ensures { result ≡ get_or marks.now number false }
{
    match marks.get(number as usize) {
        Some(mark) => *mark,
        None => false,
    }
}

/// Says whether a rule is open.
pub fn set_mark(marks: &mut Vec<bool>, number: u32, mark: bool)
    ensures { marks.new.items ≡ slice_set marks.old.items number mark }
{
    let place = number as usize;
    if place < marks.len() {
        marks[place] = mark;
    }
}

/// Opens an include-only rule, unless it is open.
fn open(
    rules: &[Rule],
    marks: &mut Vec<bool>,
    tasks: &mut Vec<Task>,
    number: u32,
    patterns: &[u32],
) -> Result<(), OutOfMemory>
    requires marked { AreMarked rules.now marks.old.items (opened_by (stacked tasks.old.items)) }
    requires only { (is_only (slice_get rules.now number) ≡ true) × (patterns_of (slice_get rules.now number) ≡ patterns.now) }
    ensures marked { OnOk result (AreMarked rules.now marks.new.items (opened_by (stacked tasks.new.items))) }
    ensures left { OnOk result (tasks_left rules.now (stacked tasks.new.items) ≡ tasks_left rules.now (Visit number ∷ stacked tasks.old.items)) }
{
    if is_marked(marks.as_slice(), number) {
        return Ok(());
    }
    tasks.push(Task::Close(number))?;
    push_visits(tasks, patterns)?;
    set_mark(marks, number, true);
    Ok(())
}

fn patterns_if_only(rule: &Rule) -> Option<&[u32]>
    ensures { MatchOption result (is_only (Some rule.now) ≡ false) (λ ps. (is_only (Some rule.now) ≡ true) × (patterns_of (Some rule.now) ≡ ps.now)) }
{
    match rule {
        Rule::Only { patterns, .. } => Some(patterns.as_slice()),
        Rule::Match { .. } => None,
        Rule::BeginEnd { .. } => None,
        Rule::BeginWhile { .. } => None,
    }
}

/// The patterns of a rule, where it is an include-only rule.
pub fn only_patterns(rules: &[Rule], number: u32) -> Option<&[u32]>
    ensures { let rule = slice_get rules.now number in
        MatchOption result (is_only rule ≡ false) (λ ps. (is_only rule ≡ true) × (patterns_of rule ≡ ps.now)) }
{
    match rules.get(number as usize) {
        Some(rule) => patterns_if_only(rule),
        None => None,
    }
}

/// Visits a rule: gives its start, or opens it.
fn visit(
    rules: &[Rule],
    marks: &mut Vec<bool>,
    tasks: &mut Vec<Task>,
    number: u32,
) -> Result<Option<u32>, OutOfMemory>
    requires marked { AreMarked rules.now marks.old.items (opened_by (stacked tasks.old.items)) }
    ensures marked { OnOk result (AreMarked rules.now marks.new.items (opened_by (stacked tasks.new.items))) }
    ensures left { IfOk result (λ found. tasks_left rules.now (Visit number ∷ stacked tasks.old.items)
        ≡ found_first found (tasks_left rules.now (stacked tasks.new.items))) }
{
    match only_patterns(rules, number) {
        Some(patterns) => {
            open(rules, marks, tasks, number, patterns)?;
            Ok(None)
        }
        None => Ok(Some(number)),
    }
}

impl<'a> Flow<'a> {
    /// A flattening of nothing yet, that may take so many steps.
    pub fn new(alloc: Global, rules: &'a [Rule], steps: u32) -> Result<Flow<'a>, OutOfMemory>
        ensures { IfOk result (λ flow. IsFlow rules.now flow × (tasks_of flow ≡ [])) }
    {
        let mut marks = Vec::new(alloc);
        marks.resize(rules.len(), false)?;
        Ok(Flow {
            rules,
            marks,
            tasks: Vec::new(alloc),
            steps,
        })
    }

    /// Begins with this rule.
    pub fn begin(&mut self, number: u32) -> Result<(), OutOfMemory>
        requires flow { IsFlow self.old.rules.now self.old }
        requires ended { tasks_of self.old ≡ [] }
        ensures rules { self.new.rules ≡ self.old.rules }
        ensures flow { OnOk result (IsFlow self.old.rules.now self.new) }
        ensures left { OnOk result (tasks_left self.old.rules.now (tasks_of self.new) ≡ flattened self.old.rules.now [] number) }
    {
        self.tasks.push(Task::Visit(number))?;
        Ok(())
    }

    /// The next rule whose start is contributed; none at the end.
    pub fn next(&mut self) -> Result<Option<u32>, OutOfMemory>
        requires { IsFlow self.old.rules.now self.old }
        ensures flow { OnOk result (IsFlow self.old.rules.now self.new) }
        ensures left { IfOk result (λ found. tasks_left self.old.rules.now (tasks_of self.old) ≡ found_first found (tasks_left self.old.rules.now (tasks_of self.new))) }
        ensures ended { IfOk result (λ found. found ≡ None → tasks_of self.new ≡ []) }
    {
        while self.steps > 0 {
            self.steps -= 1;
            match self.tasks.pop() {
                Some(Task::Close(number)) => set_mark(&mut self.marks, number, false),
                Some(Task::Visit(number)) => {
                    let found = visit(self.rules, &mut self.marks, &mut self.tasks, number)?;
                    if found.is_some() {
                        return Ok(found);
                    }
                }
                None => return Ok(None),
            }
        }
        Err(OutOfMemory)
    }
}
