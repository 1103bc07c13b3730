//! The kinds of values of a settings file, and the walk that finds the first wrong one.
//!
//! In `{"settings": [{"grammar": 3}]}` the walk goes from the empty path over `/grammar` and `/0/grammar`
//! to `/settings/0/grammar`. The key `budget` stands before `settings`.
ghost use Rattle.std.specs.Prelude.{◌≡◌, IfOk};
ghost use Rattle.serde_json.specs.View.{view};
ghost use Rattle.tm_forms.specs.Settings.{wrong_budget, wrong_language, wrong_languages, wrong_texts, wrong_setting, wrong_settings, wrong_value, absent_grammar, absent_key, wrong_in, is_count};

use crate::checks::{self, Check, Text, TextOrNull};
use crate::edits;
use serde_json::Value;
use std::alloc::Global;
use tm_defs::memory::OutOfMemory;
use tm_defs::texts::Name;

const LEAST_BUDGET: u32 = 1_000;

const GREATEST_BUDGET: u32 = 1_000_000_000;

/// A settings file lists no more settings than this.
const MOST_SETTINGS: usize = 64;

/// The number of a language fits 8 bits.
const GREATEST_LANGUAGE: u32 = 255;

/// How many steps of plain search a line may take.
struct Budget;

impl Check for Budget {
    ghost use Rattle.tm_forms.specs.Settings.{wrong_budget};

    ghost wrong = { wrong_budget };

    fn wrong_in(alloc: Global, value: &Value) -> Result<Option<Name>, OutOfMemory> {
        Ok(checks::wrong_number(alloc, LEAST_BUDGET, GREATEST_BUDGET, value))
    }
}

/// A list of texts.
struct Texts;

impl Check for Texts {
    ghost use Rattle.tm_forms.specs.Settings.{wrong_texts};

    ghost wrong = { wrong_texts };

    fn wrong_in(alloc: Global, value: &Value) -> Result<Option<Name>, OutOfMemory> {
        checks::wrong_list::<Text>(alloc, value)
    }
}

/// The number of a language.
struct Language;

impl Check for Language {
    ghost use Rattle.tm_forms.specs.Settings.{wrong_language};

    ghost wrong = { wrong_language };

    fn wrong_in(alloc: Global, value: &Value) -> Result<Option<Name>, OutOfMemory> {
        Ok(checks::wrong_number(alloc, 0, GREATEST_LANGUAGE, value))
    }
}

/// The numbers of languages, by scope.
struct Languages;

impl Check for Languages {
    ghost use Rattle.tm_forms.specs.Settings.{wrong_languages};

    ghost wrong = { wrong_languages };

    fn wrong_in(alloc: Global, value: &Value) -> Result<Option<Name>, OutOfMemory> {
        checks::wrong_map::<Language>(alloc, value)
    }
}

/// A setting.
struct Setting;

impl Check for Setting {
    ghost use Rattle.tm_forms.specs.Settings.{wrong_setting};

    ghost wrong = { wrong_setting };

    fn wrong_in(alloc: Global, value: &Value) -> Result<Option<Name>, OutOfMemory> {
        let whole = checks::wrong_object(alloc, value);
        let grammar = checks::wrong_at::<Text>(alloc, "grammar", value)?;
        let grammars = checks::wrong_at::<Texts>(alloc, "grammars", value)?;
        let injected = checks::wrong_at::<Texts>(alloc, "injected", value)?;
        let languages = checks::wrong_at::<Languages>(alloc, "languages", value)?;
        let theme = checks::wrong_at::<TextOrNull>(alloc, "theme", value)?;
        let unbalanced = checks::wrong_at::<Texts>(alloc, "unbalanced", value)?;
        Ok(whole.or(grammar.or(grammars.or(injected.or(languages.or(theme.or(unbalanced)))))))
    }
}

fn is_count(count: usize) -> bool
    ensures { result ≡ is_count count }
{
    1 <= count && count <= MOST_SETTINGS
}

/// The list of settings.
struct Listed;

impl Check for Listed {
    ghost use Rattle.tm_forms.specs.Settings.{wrong_settings};

    ghost wrong = { wrong_settings };

    fn wrong_in(alloc: Global, value: &Value) -> Result<Option<Name>, OutOfMemory> {
        if is_count(edits::length_of(value)) {
            checks::wrong_list::<Setting>(alloc, value)
        } else {
            Ok(checks::itself_unless(alloc, false))
        }
    }
}

/// The path of the first wrong value of those that are there.
fn wrong_value(alloc: Global, value: &Value) -> Result<Option<Name>, OutOfMemory>
    ensures { IfOk result (λ found. found ≡ wrong_value (view value.now)) }
{
    let whole = checks::wrong_object(alloc, value);
    let budget = checks::wrong_at::<Budget>(alloc, "budget", value)?;
    let settings = checks::wrong_at::<Listed>(alloc, "settings", value)?;
    Ok(whole.or(budget.or(settings)))
}

/// A setting that names its grammar.
struct Named;

impl Check for Named {
    ghost use Rattle.tm_forms.specs.Settings.{absent_grammar};

    ghost wrong = { absent_grammar };

    fn wrong_in(alloc: Global, value: &Value) -> Result<Option<Name>, OutOfMemory> {
        checks::absent_at(alloc, "grammar", value)
    }
}

/// Settings that each name their grammar.
struct AllNamed;

impl Check for AllNamed {
    ghost use Rattle.tm_forms.specs.Checks.{wrong_list};
    ghost use Rattle.tm_forms.specs.Settings.{absent_grammar};

    ghost wrong = { wrong_list absent_grammar };

    fn wrong_in(alloc: Global, value: &Value) -> Result<Option<Name>, OutOfMemory> {
        checks::wrong_list::<Named>(alloc, value)
    }
}

fn absent_key(alloc: Global, value: &Value) -> Result<Option<Name>, OutOfMemory>
    ensures { IfOk result (λ found. found ≡ absent_key (view value.now)) }
{
    let settings = checks::absent_at(alloc, "settings", value)?;
    let grammar = checks::wrong_at::<AllNamed>(alloc, "settings", value)?;
    Ok(settings.or(grammar))
}

/// The path of the first wrong value of a settings file.
pub fn wrong_in(alloc: Global, value: &Value) -> Result<Option<Name>, OutOfMemory>
    ensures { IfOk result (λ found. found ≡ wrong_in (view value.now)) }
{
    let wrong = wrong_value(alloc, value)?;
    let absent = absent_key(alloc, value)?;
    Ok(wrong.or(absent))
}
