//! Whole runs over files and sinks in memory.

use crate::callers;
use crate::files::{add, failing, files_of, reader, sink};
use crate::values::{shown, texts};
use serde_json::Value;
use std::alloc::Global;
use tm_cases::{Case, CaseFault};
use tm_outside::honest::HonestSink;

/// `STATUS [WRITTEN] [TOLD]`.
fn ended(alloc: Global, code: u8, out: &[u8], err: &[u8]) -> Result<String, CaseFault> {
    let (out, err) = (shown(out), shown(err));
    Ok(format!(in alloc; "{code} [{out}] [{err}]")?)
}

/// A run of these words over these files.
fn run_of(
    alloc: Global,
    words: &Vec<String>,
    files: Vec<(String, Vec<u8>)>,
    faults: Option<&Value>,
) -> Result<String, CaseFault> {
    let mut files = reader(files, failing(alloc, faults, "reads")?);
    let mut out = sink(alloc, failing(alloc, faults, "writes")?);
    let mut err = sink(alloc, failing(alloc, faults, "tells")?);
    let code = callers::ends(alloc, words, &mut files, &mut out, &mut err).code();
    ended(alloc, code, out.bytes(), err.bytes())
}

/// `run WORDS, FILES[, FAULTS]`: the status, what was written and what was told of the status. The faults are the
/// numbers of the `reads`, of the `writes` and of the writes that tell (`tells`) that fail, the first being 0.
pub fn run(alloc: Global, case: &Case) -> Result<String, CaseFault> {
    let words = texts(alloc, case.value(0)?)?;
    let files = files_of(alloc, case.value(1)?)?;
    run_of(alloc, &words, files, case.value(2).ok())
}

fn words_of(alloc: Global, words: &[&str]) -> Result<Vec<String>, CaseFault> {
    let mut list = Vec::new(alloc);
    for word in words {
        list.push(String::from_str(alloc, word)?)?;
    }
    Ok(list)
}

/// `each FILES`: what `replay s t e`, `scan s t` and `lint s` answer, once where they answer alike.
pub fn each(alloc: Global, case: &Case) -> Result<String, CaseFault> {
    let files = case.value(0)?;
    let replay = words_of(alloc, &["replay", "s", "t", "e"])?;
    let scan = words_of(alloc, &["scan", "s", "t"])?;
    let lint = words_of(alloc, &["lint", "s"])?;
    let first = run_of(alloc, &replay, files_of(alloc, files)?, None)?;
    let second = run_of(alloc, &scan, files_of(alloc, files)?, None)?;
    let third = run_of(alloc, &lint, files_of(alloc, files)?, None)?;
    if first.as_str() == second.as_str() && first.as_str() == third.as_str() {
        return Ok(first);
    }
    Ok(format!(in alloc; "{first} / {second} / {third}")?)
}

/// The letter of a metadata word, and any other word as it is.
fn letter(meta: &str) -> &str {
    match meta {
        "02008401" => "o",
        "02008501" => "c",
        "02008601" => "s",
        "02008701" => "r",
        _ => meta,
    }
}

/// A printed line as its tokens, each its start and its letter. A line that is not the accurate one of this number
/// stays as it is.
fn push_tokens(
    alloc: Global,
    text: &mut String,
    number: usize,
    line: &str,
) -> Result<(), CaseFault> {
    let front = format!(in alloc; "= {number} ")?;
    let Some(tokens) = line.strip_prefix(front.as_str()) else {
        text.push_str(line)?;
        return Ok(());
    };
    for (i, token) in tokens.split(' ').enumerate() {
        if i != 0 {
            text.push(' ')?;
        }
        let (start, meta) = token.split_once(':').unwrap_or((token, "?"));
        text.push_str(start)?;
        text.push_str(letter(meta))?;
    }
    Ok(())
}

/// What a scan printed, with a line's tokens between `|`.
fn scanned(alloc: Global, printed: &str) -> Result<String, CaseFault> {
    let mut text = String::new(alloc);
    for (number, line) in printed.lines().enumerate() {
        if number != 0 {
            text.push('|')?;
        }
        push_tokens(alloc, &mut text, number, line)?;
    }
    Ok(text)
}

/// The files of a grammar of these patterns, whose scope is `source.t`.
fn grammar_files(alloc: Global, patterns: &Value) -> Result<Vec<(String, Vec<u8>)>, CaseFault> {
    let mut grammar = String::from_str(alloc, "{\"scopeName\":\"source.t\",\"patterns\":")?;
    grammar.push_str(patterns.to_string(alloc)?.as_str())?;
    grammar.push('}')?;
    let mut files = Vec::new(alloc);
    add(
        alloc,
        &mut files,
        "s",
        "{\"settings\":[{\"grammar\":\"g\"}]}",
    )?;
    add(alloc, &mut files, "g", grammar.as_str())?;
    Ok(files)
}

/// `tokens PATTERNS, TEXT` or `tokens FILES, TEXT`: the tokens that a scan prints of each line, a line's between `|`,
/// each as its start and the letter of its kind: `o` for other, `c` for a comment, `s` for a string and `r` for a
/// regular expression.
pub fn tokens(alloc: Global, case: &Case) -> Result<String, CaseFault> {
    let given = case.value(0)?;
    let mut files = match given.as_array() {
        Some(_) => grammar_files(alloc, given)?,
        None => files_of(alloc, given)?,
    };
    let text = crate::files::text_of(alloc, case.value(1)?)?;
    add(alloc, &mut files, "t", text.as_str())?;
    let words = words_of(alloc, &["scan", "s", "t"])?;
    let mut files = reader(files, Vec::new(alloc));
    let mut out = HonestSink::new(Vec::new(alloc));
    let mut err = HonestSink::new(Vec::new(alloc));
    if callers::is_done(alloc, &words, &mut files, &mut out, &mut err) {
        scanned(alloc, shown(out.bytes()))
    } else {
        Ok(format!(in alloc; "not done: {}", shown(err.bytes()))?)
    }
}
