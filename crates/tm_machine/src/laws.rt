//! Laws of the definitions. Each function is a theorem: its contract is the law.
ghost use Rattle.std.specs.Prelude.{◌≡◌, ◌≢◌, ◌<◌, ◌≤◌, ◌-◌, ℕ, true, List, Some, None, length, nat_lt, All, Contains, slice_get};
ghost use Rattle.std.specs.List.Sorted.{IsStrictlyIncreasing};
ghost use Rattle.tm_defs.specs.declared.changes.Change.{Change};
ghost use Rattle.tm_defs.specs.declared.changes.Place.{Place};
ghost use Rattle.tm_defs.specs.declared.events.Step.{Step};
ghost use Rattle.tm_machine.specs.Changes.{BornText, IsBorn, AreIn, changed, changed_by, effects_of, opened, line_after, lines_of, HaveNoBreak};
ghost use Rattle.tm_machine.specs.Births.{Birth, place_of};
ghost use Rattle.tm_machine.specs.Entries.{AreRight, AreAccurate, blocked_at, front, is_accurate, is_settled, start_at};
ghost use Rattle.tm_machine.specs.Documents.{Rules, Document, Answer, HasRightEntries, RunsTo, edited};
ghost use Rattle.tm_machine.specs.Machine.{Machine, Side, Runs, IsAccurate, entry_of, machine_of, seen, with_births};
ghost use Rattle.tm_machine.specs.Turns.{DoesLines, Forces, IsBlockedFront, opening};
ghost use Rattle.tm_machine.specs.Past.{IsWithinPast, stands_of_run};
ghost use Rattle.tm_machine.specs.Places.{IsIn, bad_place};
ghost use Rattle.tm_machine.specs.Reach.{Stand, GrowsByLines, IsWithinReach, ReachesMoreThan};
ghost use Rattle.tm_machine.specs.Scratch.{Tokenizing, state_from_scratch};
ghost use Rattle.tm_machine.specs.Sound.{IsSound, IsSoundSide};
ghost use Rattle.tm_machine.specs.Work.{work};
ghost use Rattle.tm_defs.specs.Tables.{Tables, TableEntries, IsNumbering, LacksEntry};
ghost use Rattle.tm_machine.specs.declared.entries.Entry.{Entry};
ghost use Rattle.tm_defs.specs.declared.frames.FrameData.{FrameData};

/// The births of one text differ, whatever changes it took.
pub fn births_differ()
    ensures opening { (lines : List (List ℕ)) → IsBorn (opened lines) }
    ensures change { (t : BornText) (c : Change) → IsBorn t → IsIn t.lines c → IsBorn (changed t c) }
{}

/// The line map through the effects of any changes finds the present place of each birth, and none
/// where the birth is gone; the line there has the same characters.
pub fn line_map_finds_births()
    ensures place { (t : BornText) (cs : List Change) (b : Birth) (i : ℕ) → IsBorn t → AreIn t cs → place_of t.births b ≡ Some i → place_of (changed_by t cs).births b ≡ line_after (effects_of t cs) i }
    ensures line { (t : BornText) (cs : List Change) (i j : ℕ) → AreIn t cs → line_after (effects_of t cs) i ≡ Some j → slice_get (changed_by t cs).lines j ≡ slice_get t.lines i }
{}

/// A change keeps what is kept of each line whose birth it leaves.
pub fn changes_keep_entries()
    ensures { (r : Rules) (s : Side) (c : Change) (b : Birth) (i j : ℕ) → IsSoundSide r s → IsIn s.text.lines c → place_of s.text.births b ≡ Some i → place_of (changed s.text c).births b ≡ Some j → entry_of (with_births (changed s.text c) (edited (seen s) c)) b ≡ entry_of s b }
{}

/// The lines of a text hold no line break, and there is at least one.
pub fn lines_are_lines()
    ensures no_break { (cs : List ℕ) → HaveNoBreak (lines_of cs) }
    ensures some { (cs : List ℕ) → 0 < length (lines_of cs) }
{}

/// A change whose places are in the text has no bad place, and the other way round.
pub fn bad_places_are_told()
    ensures good { (lines : List (List ℕ)) (c : Change) → bad_place lines c ≡ None → IsIn lines c }
    ensures bad { (lines : List (List ℕ)) (c : Change) (place : Place) → bad_place lines c ≡ Some place → ¬ (IsIn lines c) }
{}

/// Where each good entry is what its line gives from its start, each accurate one is what
/// tokenizing the text from its first line gives; and a store without an invalid line is that
/// tokenizing whole.
pub fn accurate_is_from_scratch()
    ensures { (k : Tokenizing) (budget : ℕ) (lines : List (List ℕ)) (es : List (Entry (List FrameData))) → AreRight k budget opening lines es → AreAccurate k lines es }
{}

/// Whatever steps the machine takes, and however it chooses: each good line of both sides is what its
/// line gives from its start, and each blocked one costs more than the budget; the worker can do the
/// waiting orders, and they lead it to the foreground's text and setting; and each item of a waiting batch is what its line
/// gives from its start, and has the characters of the line of its birth where that still stands.
pub fn every_run_is_sound()
    ensures { (r : Rules) (lines : List (List ℕ)) (xs : List (Step × Answer)) (m : Machine) → Runs r (machine_of lines) xs m → IsSound r m }
{}

/// Hence what is kept of the foreground's lines is accurate behind every run.
pub fn every_run_is_accurate()
    ensures { (r : Rules) (lines : List (List ℕ)) (xs : List (Step × Answer)) (m : Machine) → Runs r (machine_of lines) xs m → IsAccurate r m }
{}

/// A run keeps nothing but what stood: the foreground's text and each text on the worker's way through
/// the waiting orders stood with the setting beside it, and each state that is stored on either side, or
/// waits in a batch, is the opening one or the end of a line of a text that stood, tokenized from its
/// first line. The text of a refused edit never stood.
pub fn every_run_keeps_what_stood()
    ensures { (r : Rules) (lines : List (List ℕ)) (xs : List (Step × Answer)) (m : Machine) → Runs r (machine_of lines) xs m → IsWithinPast r (stands_of_run lines xs) m }
{}

/// A line is accurate exactly where it stands before the front; without a front every line is.
pub fn accurate_lines_stand_before_the_front()
    ensures front { (es : List (Entry (List FrameData))) (i f : ℕ) → front es ≡ Some f → is_accurate es i ≡ nat_lt i f }
    ensures none { (es : List (Entry (List FrameData))) (i : ℕ) → front es ≡ None → is_accurate es i ≡ true }
{}

/// Lines that are done one after another rise, so none is done twice, and none is behind the last
/// line or the text. A good line whose start is the same behind them is not among them. How many were
/// done says which.
pub fn lines_are_done_once()
    ensures rising { (k : Tokenizing) (budget : ℕ) (lines : List (List ℕ)) (last : ℕ) (es : List (Entry (List FrameData))) (done : List ℕ) (after : List (Entry (List FrameData))) → DoesLines k budget lines last es done after → IsStrictlyIncreasing done }
    ensures within { (k : Tokenizing) (budget : ℕ) (lines : List (List ℕ)) (last : ℕ) (es : List (Entry (List FrameData))) (done : List ℕ) (after : List (Entry (List FrameData))) → DoesLines k budget lines last es done after → All (λ i. (i < length es) × (i ≤ last)) done }
    ensures few { (k : Tokenizing) (budget : ℕ) (lines : List (List ℕ)) (last : ℕ) (es : List (Entry (List FrameData))) (done : List ℕ) (after : List (Entry (List FrameData))) → DoesLines k budget lines last es done after → length done ≤ length es }
    ensures kept { (k : Tokenizing) (budget : ℕ) (lines : List (List ℕ)) (last : ℕ) (es : List (Entry (List FrameData))) (done : List ℕ) (after : List (Entry (List FrameData))) (i : ℕ) (e : Entry (List FrameData)) → DoesLines k budget lines last es done after → slice_get es i ≡ Some e → e.good ≡ true → start_at opening es i ≡ start_at opening after i → ¬ Contains done i }
    ensures one { (k : Tokenizing) (budget : ℕ) (lines : List (List ℕ)) (last : ℕ) (es : List (Entry (List FrameData))) (done more : List ℕ) (a b : List (Entry (List FrameData))) → DoesLines k budget lines last es done a → DoesLines k budget lines last es more b → length done ≡ length more → (done ≡ more) × (a ≡ b) }
{}

/// A front that is blocked costs more than the budget from its state from scratch, so what ends a
/// run early has that cause. A run to the last line that blocks none leaves no front.
pub fn runs_end_for_a_cause()
    ensures front { (k : Tokenizing) (budget : ℕ) (lines : List (List ℕ)) (es : List (Entry (List FrameData))) (i : ℕ) → AreRight k budget opening lines es → front es ≡ Some i → blocked_at es i ≡ true → IsBlockedFront k budget lines es i }
    ensures blocked { (k : Tokenizing) (budget : ℕ) (lines : List (List ℕ)) (last : ℕ) (es : List (Entry (List FrameData))) (count i : ℕ) (after : List (Entry (List FrameData))) → AreRight k budget opening lines es → Forces k budget lines last es count (Some i) after → IsBlockedFront k budget lines after i }
    ensures all { (k : Tokenizing) (budget : ℕ) (lines : List (List ℕ)) (es : List (Entry (List FrameData))) (count : ℕ) (after : List (Entry (List FrameData))) → length es ≡ length lines → Forces k budget lines (length lines - 1) es count None after → front after ≡ None }
{}

/// A table that holds only what is reached, and is full for a line, shows that the reach has more
/// entries of one kind than any number below the table's limit. What the front line makes of a sound
/// store is reached, and so is what lines of a text that stood make.
pub fn full_tables_show_a_large_reach()
    ensures full { (r : Rules) (stands : List Stand) (t : Tables) (made : TableEntries) (n few : ℕ) → IsNumbering t → IsWithinReach r stands t → few < t.limit → LacksEntry n made t → ReachesMoreThan few r stands }
    ensures front { (k : Tokenizing) (budget : ℕ) (lines : List (List ℕ)) (es : List (Entry (List FrameData))) (i : ℕ) → AreRight k budget opening lines es → front es ≡ Some i → start_at opening es i ≡ Some (state_from_scratch k lines i) }
    ensures grown { (r : Rules) (stands : List Stand) (s : Stand) (old new : Tables) → Contains stands s → GrowsByLines (r.setting s.epoch) s.lines old new → IsWithinReach r stands old → IsWithinReach r stands new }
{}

/// A change of a settled text, followed at once by a settle that is not blocked, does exactly its work:
/// the new lines, and the later lines before which the state from scratch is another one than it was.
pub fn work_is_exact()
    ensures { (r : Rules) (d : Document) (c : Change) (n : ℕ) (after : Document) → HasRightEntries r d → is_settled d.entries ≡ true → IsIn d.lines c → RunsTo r (edited d c) (length (edited d c).lines - 1) n None after → n ≡ work (r.setting d.epoch) d.lines c }
{}
