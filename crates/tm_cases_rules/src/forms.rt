//! The files of a run in the form that is built, or why they are refused.

use crate::printed::{bad_shape, push_name};
use std::alloc::{AllocError, Global};
use tm_cases::CaseFault;
use tm_forms::form::{Form, Refusal};
use tm_forms::settings::{SettingFiles, Settings};
use tm_forms::text::TextFile;
use tm_grammar::grammar::RawGrammar;

/// Why a file is refused.
pub(crate) fn refusal_text(alloc: Global, refusal: &Refusal) -> Result<String, AllocError> {
    match refusal {
        Refusal::NotJson => String::from_str(alloc, "NotJson"),
        Refusal::BadShape(path) => bad_shape(alloc, path),
        Refusal::NotYet => String::from_str(alloc, "NotYet"),
    }
}

fn push_files(text: &mut String, files: &SettingFiles) -> Result<(), AllocError> {
    text.push(' ')?;
    text.push_str(files.grammar())?;
    text.push('(')?;
    for grammar in files.grammars() {
        text.push_str(grammar.as_str())?;
        text.push(';')?;
    }
    text.push(')')
}

/// The budget of settings, and each setting's grammar with the further ones in parentheses.
fn settings_text(alloc: Global, settings: &Settings) -> Result<String, AllocError> {
    let budget = settings.budget();
    let mut text = format!(in alloc; "{budget}")?;
    for files in settings.settings() {
        push_files(&mut text, files)?;
    }
    Ok(text)
}

/// What is answered of a settings file.
pub(crate) fn settings(alloc: Global, bytes: &[u8]) -> Result<String, CaseFault> {
    match Settings::read(alloc, bytes).or(Err(CaseFault::OutOfMemory))? {
        Ok(settings) => Ok(settings_text(alloc, &settings)?),
        Err(refusal) => Ok(refusal_text(alloc, &refusal)?),
    }
}

/// The same, but of settings how many there are.
pub(crate) fn settings_count(alloc: Global, bytes: &[u8]) -> Result<String, CaseFault> {
    match Settings::read(alloc, bytes).or(Err(CaseFault::OutOfMemory))? {
        Ok(settings) => {
            let count = settings.settings().len();
            Ok(format!(in alloc; "{count}")?)
        }
        Err(refusal) => Ok(refusal_text(alloc, &refusal)?),
    }
}

/// The scope of a grammar, and how many rules its patterns list.
fn grammar_text(alloc: Global, grammar: &RawGrammar) -> Result<String, AllocError> {
    let mut text = String::new(alloc);
    push_name(&mut text, grammar.scope_name())?;
    let count = match &grammar.root().patterns {
        Some(rules) => rules.as_slice().len(),
        None => 0,
    };
    text.push_str(format!(in alloc; " {count}")?.as_str())?;
    Ok(text)
}

/// What is answered of a grammar file.
pub(crate) fn grammar(alloc: Global, bytes: &[u8]) -> Result<String, CaseFault> {
    match RawGrammar::read(alloc, bytes).or(Err(CaseFault::OutOfMemory))? {
        Ok(grammar) => Ok(grammar_text(alloc, &grammar)?),
        Err(refusal) => Ok(refusal_text(alloc, &refusal)?),
    }
}

/// The characters of a text between quotes.
fn quoted(alloc: Global, text: &TextFile) -> Result<String, AllocError> {
    let mut quoted = String::from_str(alloc, "\"")?;
    for c in text.as_slice() {
        quoted.push(*c)?;
    }
    quoted.push('"')?;
    Ok(quoted)
}

/// What is answered of a text file.
pub(crate) fn text(alloc: Global, bytes: &[u8]) -> Result<String, CaseFault> {
    match TextFile::read(alloc, bytes).or(Err(CaseFault::OutOfMemory))? {
        Ok(text) => Ok(quoted(alloc, &text)?),
        Err(refusal) => Ok(refusal_text(alloc, &refusal)?),
    }
}

/// The same, but of a text how many characters it has.
pub(crate) fn text_length(alloc: Global, bytes: &[u8]) -> Result<String, CaseFault> {
    match TextFile::read(alloc, bytes).or(Err(CaseFault::OutOfMemory))? {
        Ok(text) => {
            let length = text.as_slice().len();
            Ok(format!(in alloc; "{length}")?)
        }
        Err(refusal) => Ok(refusal_text(alloc, &refusal)?),
    }
}
