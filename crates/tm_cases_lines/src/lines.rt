//! Lines of one grammar, and the pieces and metadata of lines.
ghost use Rattle.std.specs.Prelude.{◌≡◌, ◌<◌, ◌≤◌, IsTrue};
ghost use Rattle.tm_line_turns.specs.Painted.{furthest};

use crate::callers::tokenized;
use crate::files::text_of;
use crate::values::{characters, list, small, small_at};
use serde_json::Value;
use std::alloc::Global;
use std::marker::Brand;
use std::sync::ledger::{Blank, Ledger};
use tm_cases::{Case, CaseFault};
use tm_defs::frames::StateId;
use tm_defs::steps::Steps;
use tm_defs::texts::Line;
use tm_defs::tokenizer::LineFault;
use tm_defs::tokens::Token;
use tm_grammar::grammar::RawGrammar;
use tm_line::tokenizer::{Parts, Setting};
use tm_line_turns::painter::{Painted, tokens_of};
use tm_meta::metadata::{TokenType, base_metadata, decided};
use tm_rules::grammars::Grammars;
use tm_state::states::StateTable;

/// A line has fewer characters.
const LENGTH_BOUND: usize = 0x7fff_ffff;

/// A setting of this one grammar.
fn setting_of(alloc: Global, grammar: &Value) -> Result<Setting, CaseFault> {
    let text = text_of(alloc, grammar)?;
    let Ok(root) = RawGrammar::from_slice(alloc, text.as_bytes()) else {
        return Err(CaseFault::NoField);
    };
    let grammars = Grammars {
        root,
        more: Vec::new(alloc),
        injected: Vec::new(alloc),
    };
    Setting::build(alloc, Parts { grammars }).map_err(|_| CaseFault::NoField)
}

/// Tokens as `START:METADATA`, the metadata as eight hexadecimal digits.
fn tokens_text(alloc: Global, tokens: &[Token]) -> Result<String, CaseFault> {
    let mut text = String::new(alloc);
    for (i, token) in tokens.iter().enumerate() {
        if i != 0 {
            text.push(' ')?;
        }
        text.push_str(format!(in alloc; "{}:{:08x}", token.start, token.meta)?.as_str())?;
    }
    Ok(text)
}

fn line_of<L: Ledger>(
    alloc: Global,
    blank: Blank,
    setting: &Setting,
    line: &Line,
    budget: u64,
    limit: u32,
) -> Result<String, CaseFault>
    requires name { blank.name ≡ L.name }
    requires parts { blank.parts ≡ L.parts }
    requires some { 0 < blank.parts }
    requires limit { 0 < limit }
{
    let Ok(mut table) = StateTable::new(alloc, limit) else {
        return Err(CaseFault::OutOfMemory);
    };
    let mut steps: Steps<L> = Steps::new(blank);
    if line.as_slice().len() >= LENGTH_BOUND {
        return Err(CaseFault::NoField);
    }
    match tokenized(setting, &mut table, line, budget, &mut steps) {
        Ok(out) => {
            let StateId(end) = out.end;
            let tokens = tokens_text(alloc, out.tokens.as_slice())?;
            Ok(format!(in alloc; "{tokens} end {end}")?)
        }
        Err(LineFault::Budget) => Ok(String::from_str(alloc, "blocked")?),
        Err(LineFault::TableFull(count)) => Ok(format!(in alloc; "full at {count}")?),
        Err(LineFault::OutOfMemory) => Err(CaseFault::OutOfMemory),
    }
}

/// `line GRAMMAR, TEXT, BUDGET, LIMIT`: the tokens of a line from the opening state under a budget in steps, and the
/// number of its end in tables that hold up to the limit.
pub fn line(alloc: Global, case: &Case) -> Result<String, CaseFault> {
    let setting = setting_of(alloc, case.value(0)?)?;
    let line = Line::new(characters(alloc, case.text(1)?)?);
    let limit = small(case.value(3)?)?;
    if limit == 0 {
        return Err(CaseFault::NoField);
    }
    line_of::<Brand>(
        alloc,
        Blank::new(1),
        &setting,
        &line,
        case.number(2)?,
        limit,
    )
}

/// Whether something is painted up to this length.
fn reaches(pieces: &[Painted], len: usize) -> bool
    ensures { IsTrue result → len ≤ furthest pieces.now }
{
    for piece in pieces {
        if len <= piece.end {
            return true;
        }
    }
    false
}

/// `runs PIECES, LENGTH, METADATA`: the tokens of painted pieces, each `[END, METADATA]`, over a line of this length.
/// An empty line has the metadata of the state behind it.
pub fn runs(alloc: Global, case: &Case) -> Result<String, CaseFault> {
    let mut pieces = Vec::new(alloc);
    for piece in list(case.value(0)?)? {
        let piece = list(piece)?;
        let end = small_at(piece, 0)? as usize;
        let meta = small_at(piece, 1)?;
        pieces.push(Painted { end, meta })?;
    }
    let len = small(case.value(1)?)? as usize;
    if len >= LENGTH_BOUND || (len != 0 && !reaches(pieces.as_slice(), len)) {
        return Err(CaseFault::NoField);
    }
    match tokens_of(alloc, pieces.as_slice(), len, small(case.value(2)?)?) {
        Ok(tokens) => tokens_text(alloc, tokens.as_slice()),
        Err(_) => Err(CaseFault::OutOfMemory),
    }
}

/// `type SCOPE`: the token type that a scope decides; `type` alone gives the metadata of no scopes.
pub fn type_of(alloc: Global, case: &Case) -> Result<String, CaseFault> {
    if case.len() == 0 {
        return Ok(format!(in alloc; "{:08x}", base_metadata())?);
    }
    let scope = characters(alloc, case.text(0)?)?;
    let word = match decided(scope.as_slice()) {
        Some(TokenType::Other) => "other",
        Some(TokenType::Comment) => "comment",
        Some(TokenType::Text) => "string",
        Some(TokenType::Regex) => "regex",
        None => "none",
    };
    Ok(String::from_str(alloc, word)?)
}
