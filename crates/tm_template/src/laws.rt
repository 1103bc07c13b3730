//! Laws about the definitions, as functions that do nothing.
ghost use Rattle.std.specs.Prelude.{◌≡◌, ℕ, List};
ghost use Rattle.tm_onig_search.specs.Outcomes.{Caps};
ghost use Rattle.tm_template.specs.References.{Piece, Form, name_form, end_form, pieces};
ghost use Rattle.tm_template.specs.Laws.{spelled, AreRead, IsReferring, StaysAlone, IsReferringName, GivesItsWords, WordsAre, AreWords};
ghost use Rattle.tm_template.specs.Rows.{Rows};

/// Law: the pieces of a template are spelled as the template, each reference is as long as it can be,
/// and no character that stands for itself begins one; and no other pieces are so.
pub fn template_pieces()
    ensures spelled { (text : List ℕ) → spelled name_form (pieces name_form text) ≡ text }
    ensures read { (text : List ℕ) → AreRead name_form (pieces name_form text) }
    ensures only { (ps : List Piece) → AreRead name_form ps → pieces name_form (spelled name_form ps) ≡ ps }
{}

/// Law: the same of the text of an end.
pub fn end_pieces()
    ensures spelled { (text : List ℕ) → spelled end_form (pieces end_form text) ≡ text }
    ensures read { (text : List ℕ) → AreRead end_form (pieces end_form text) }
    ensures only { (ps : List Piece) → AreRead end_form ps → pieces end_form (spelled end_form ps) ≡ ps }
{}

/// Law: the text of an end refers to a group where one of its pieces does, and stays as it is where none
/// does.
pub fn ends_alone()
    ensures refers { (text : List ℕ) → IsReferring text }
    ensures stays { (text line : List ℕ) (caps : Caps) → StaysAlone text line caps }
{}

/// Law: a template refers to a group where one of its pieces does, and gives its own words for every match
/// where none does.
pub fn templates_alone()
    ensures refers { (text : List ℕ) → IsReferringName text }
    ensures gives { (template line : List ℕ) (caps : Caps) → GivesItsWords template line caps }
{}

/// Law: a name is one word, and a space parts the words before it from those behind it. So the words of
/// a text are names without spaces, and have all its other characters in order.
pub fn words()
    ensures determined { WordsAre }
    ensures names { (text : List ℕ) → AreWords text }
{}

/// Law: some answers, worked out by the definitions.
pub fn worked_answers()
    ensures { Rows }
{}
