//! A theme of its file, or why it is refused.
ghost use Rattle.std.specs.Prelude.{◌≡◌, ◌≢◌, IfOk, IfErr, Err, option_map, Some};
ghost use Rattle.serde_json.specs.View.{view};
ghost use Rattle.tm_grammar.specs.File.{value_in};
ghost use Rattle.tm_theme.specs.Fonts.{AreFonts};
ghost use Rattle.tm_theme_file.specs.Read.{rules_in};
ghost use Rattle.tm_theme.specs.Answer.{theme_from, IsRight, IsCauseIn, answer_from, answer_of};
ghost use Rattle.tm_theme.specs.declared.fault.ThemeFault.TheVariants as fault;

use crate::fault::ThemeFault;
use crate::palette::{all_alternatives, are_too_many, background_number, defaults_of, palette_of};
use crate::style::Look;
use crate::theme::Theme;
use serde_json::Value;
use std::alloc::Global;
use tm_defs::memory::OutOfMemory;
use tm_theme_file::fault::Wrong;
use tm_theme_file::read::{WrittenRule, rules_in};
use tm_theme_file::wrong::wrong_in;

/// The value of a file.
fn value_of(alloc: Global, bytes: &[u8]) -> Result<Option<Value>, OutOfMemory>
    ensures { IfOk result (λ found. option_map view found ≡ value_in bytes.now) }
{
    match Value::from_slice(alloc, bytes) {
        Ok(value) => Ok(Some(value)),
        Err(error) => {
            if error.is_memory() {
                Err(OutOfMemory)
            } else {
                Ok(None)
            }
        }
    }
}

/// The theme of rules, unless their colours are too many.
fn rules_theme(alloc: Global, rules: &[WrittenRule]) -> Result<Option<Theme>, OutOfMemory>
    requires { AreFonts rules.now }
    ensures { IfOk result (λ theme. theme ≡ theme_from rules.now) }
{
    let defaults = defaults_of(alloc, rules)?;
    let palette = palette_of(alloc, &defaults, rules)?;
    let colours = palette.as_slice();
    if are_too_many(colours, rules) {
        return Ok(None);
    }
    let alternatives = all_alternatives(alloc, colours, rules)?;
    let base = Look {
        font: defaults.font,
        foreground: 1,
        background: background_number(&defaults),
    };
    Ok(Some(Theme::new(alloc, base, alternatives)?))
}

fn theme_value(alloc: Global, value: &Value) -> Result<Option<Theme>, OutOfMemory>
    ensures { IfOk result (λ theme. theme ≡ theme_from (rules_in (view value.now))) }
{
    let rules = rules_in(alloc, value)?;
    rules_theme(alloc, rules.as_slice())
}

/// The theme of a value, or what is first wrong in it.
fn theme_in(alloc: Global, value: &Value) -> Result<Theme, ThemeFault>
    ensures { result ≢ Err fault.OutOfMemory → result ≡ answer_from (view value.now) }
{
    match wrong_in(alloc, value) {
        Ok(Some(Wrong::Shape(path))) => Err(ThemeFault::BadShape(path)),
        Ok(Some(Wrong::Colour(path))) => Err(ThemeFault::BadColour(path)),
        Ok(None) => match theme_value(alloc, value) {
            Ok(Some(theme)) => Ok(theme),
            Ok(None) => Err(ThemeFault::TooManyColours),
            Err(_) => Err(ThemeFault::OutOfMemory),
        },
        Err(_) => Err(ThemeFault::OutOfMemory),
    }
}

impl Theme {
    /// Reads a file: a JSON object with the rules `tokenColors`, or else `settings`, after vscode-textmate.
    pub fn from_slice(alloc: Global, bytes: &[u8]) -> Result<Theme, ThemeFault>
        // A theme is that of the bytes' value, in which nothing is wrong.
        ensures theme { IfOk result (λ theme. IsRight (Some theme) bytes.now) }
        // Each refusal has its cause in the bytes.
        ensures cause { IfErr result (IsCauseIn bytes.now) }
        // Where memory suffices, the answer is that of the definition: each comes where it has to.
        ensures exact { result ≢ Err fault.OutOfMemory → result ≡ answer_of (value_in bytes.now) }
    {
        match value_of(alloc, bytes) {
            Ok(Some(value)) => theme_in(alloc, &value),
            Ok(None) => Err(ThemeFault::NotJson),
            Err(_) => Err(ThemeFault::OutOfMemory),
        }
    }
}
