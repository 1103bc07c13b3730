//! The settings file: which grammars tokenize the text, and how much a line may cost.
ghost use Rattle.std.specs.Prelude.{◌≡◌, codes, option_map, string_bytes, map, IfOk};
ghost use Rattle.serde_json.specs.Find.{get};
ghost use Rattle.serde_json.specs.View.{view, items_view};
ghost use Rattle.tm_forms.specs.Settings.{is_theme, is_later_setting, has_later_setting, text_of, texts_of, files_of, all_files, budget_of, settings_of, settings_from, settings_in};

use crate::form::{Form, Refusal};
use crate::{edits, json, kinds};
use serde_json::Value;
use std::alloc::Global;
use std::marker::Model;
use tm_defs::memory::OutOfMemory;

/// The budget of a line where the file names none, in steps of plain search.
const DEFAULT_BUDGET: u32 = 100_000_000;

/// A setting: the names of grammar files as they stand in the settings, which contracts see as bytes.
#[derive(Drop)]
pub struct SettingFiles {
    grammar: String,
    grammars: Vec<String>,
}

impl Model for SettingFiles {
    ghost use Rattle.std.specs.Prelude.{string_bytes, map};
    ghost use Rattle.tm_forms.specs.Settings.{SettingFilesData, setting_files};

    ghost Value = { SettingFilesData };

    ghost view = { λ a. setting_files (string_bytes a.grammar) (map string_bytes a.grammars.items) };
}

impl SettingFiles {
    /// The name of the file of the grammar that tokenizes.
    pub fn grammar(&self) -> &str
        ensures { result.now ≡ self.now.grammar }
    {
        self.grammar.as_str()
    }

    /// The names of the files of further grammars, which includes may name.
    pub fn grammars(&self) -> &[String]
        ensures { map string_bytes result.now ≡ self.now.grammars }
    {
        self.grammars.as_slice()
    }
}

/// A settings file: 1 to 64 settings, and the budget of a line.
#[derive(Drop)]
pub struct Settings {
    settings: Vec<SettingFiles>,
    budget: u32,
}

impl Model for Settings {
    ghost use Rattle.tm_forms.specs.Settings.{SettingsData, settings_data};

    ghost Value = { SettingsData };

    ghost view = { λ a. settings_data a.settings.items a.budget };
}

impl Settings {
    /// The settings in the order of the file.
    pub fn settings(&self) -> &[SettingFiles]
        ensures { result.now ≡ self.now.settings }
    {
        self.settings.as_slice()
    }

    /// How many steps of plain search a line may take.
    pub fn budget(&self) -> u64
        ensures { result ≡ self.now.budget }
    {
        self.budget as u64
    }
}

fn has_theme(value: &Value) -> bool
    ensures { result ≡ is_theme (get (codes "theme") (view value.now)) }
{
    match value.get("theme") {
        Some(theme) => !theme.is_null(),
        None => false,
    }
}

/// Whether a setting has a key that is not built yet.
fn later_setting(value: &Value) -> bool
    ensures { result ≡ is_later_setting (view value.now) }
{
    json::has(value, "injected")
        || json::has(value, "languages")
        || json::has(value, "unbalanced")
        || has_theme(value)
}

fn later_among(items: &[Value]) -> bool
    ensures { result ≡ has_later_setting (items_view items.now) }
{
    for item in items {
        if later_setting(item) {
            return true;
        }
    }
    false
}

fn text_of(alloc: Global, value: Option<&Value>) -> Result<String, OutOfMemory>
    ensures { IfOk result (λ text. string_bytes text ≡ text_of (option_map (λ v. view v.now) value.entry)) }
{
    match value.and_then(Value::as_str) {
        Some(text) => Ok(String::from_str(alloc, text)?),
        None => Ok(String::new(alloc)),
    }
}

fn texts_of(alloc: Global, items: &[Value]) -> Result<Vec<String>, OutOfMemory>
    ensures { IfOk result (λ texts. map string_bytes texts.items ≡ texts_of (items_view items.now)) }
{
    let mut texts = Vec::new(alloc);
    for item in items {
        texts.push(text_of(alloc, Some(item))?)?;
    }
    Ok(texts)
}

fn files_of(alloc: Global, value: &Value) -> Result<SettingFiles, OutOfMemory>
    ensures { IfOk result (λ files. files ≡ files_of (view value.now)) }
{
    let grammar = text_of(alloc, value.get("grammar"))?;
    let grammars = texts_of(alloc, json::items_at(value, "grammars"))?;
    Ok(SettingFiles { grammar, grammars })
}

fn all_files(alloc: Global, items: &[Value]) -> Result<Vec<SettingFiles>, OutOfMemory>
    ensures { IfOk result (λ all. all.items ≡ all_files (items_view items.now)) }
{
    let mut all = Vec::new(alloc);
    for item in items {
        all.push(files_of(alloc, item)?)?;
    }
    Ok(all)
}

fn budget_of(value: &Value) -> u32
    ensures { result ≡ budget_of (view value.now) }
{
    value
        .get("budget")
        .and_then(edits::whole_number)
        .unwrap_or(DEFAULT_BUDGET)
}

fn settings_of(alloc: Global, value: &Value) -> Result<Settings, OutOfMemory>
    ensures { IfOk result (λ settings. settings ≡ settings_of (view value.now)) }
{
    let settings = all_files(alloc, json::items_at(value, "settings"))?;
    let budget = budget_of(value);
    Ok(Settings { settings, budget })
}

fn settings_from(alloc: Global, value: &Value) -> Result<Result<Settings, Refusal>, OutOfMemory>
    ensures { IfOk result (λ found. found ≡ settings_from (view value.now)) }
{
    if let Some(path) = kinds::wrong_in(alloc, value)? {
        return Ok(Err(Refusal::BadShape(path)));
    }
    if later_among(json::items_at(value, "settings")) {
        return Ok(Err(Refusal::NotYet));
    }
    Ok(Ok(settings_of(alloc, value)?))
}

impl Form for Settings {
    ghost use Rattle.tm_forms.specs.Settings.{SettingsData};

    ghost Plain = { SettingsData };

    ghost plain = { λ settings. settings };

    ghost form = { settings_in };

    fn read(alloc: Global, bytes: &[u8]) -> Result<Result<Self, Refusal>, OutOfMemory> {
        match json::value_of(alloc, bytes)? {
            Some(value) => settings_from(alloc, &value),
            None => Ok(Err(Refusal::NotJson)),
        }
    }
}
