//! One call made many times, so that a measurement sees little else.
ghost use Rattle.tm_theme.specs.Style.{IsSmall};

use crate::callers::word_below;
use crate::texts::path_of;
use crate::themes::{file_of, languages_of, told};
use std::alloc::Global;
use tm_cases::{Case, CaseFault};
use tm_defs::texts::{Name, ScopePath};
use tm_meta::metadata::TokenType;
use tm_selector::names::Scopes;
use tm_theme::rules::MetaRules;
use tm_theme::theme::{Parts, Theme};

/// The first names of a path.
#[derive(Drop)]
struct First<'a> {
    all: &'a [Name],
}

impl<'a> Scopes for First<'a> {
    ghost names = { λ first. first.all.now };

    fn count(&self) -> usize {
        self.all.len()
    }

    fn scope(&self, place: usize) -> Option<&Name> {
        self.all.get(place)
    }
}

fn rules_of(alloc: Global, case: &Case, place: usize) -> Result<MetaRules, CaseFault> {
    Ok(MetaRules {
        languages: languages_of(alloc, case.value(place)?)?,
        unbalanced: Vec::new(alloc),
    })
}

/// The word of a path, worked out so many times, by turns of the path and a copy of it: which one is next hangs on the
/// word, so that no compiler makes one call of all.
fn word_times(
    theme: &Theme,
    rules: &MetaRules,
    path: &ScopePath,
    copy: &ScopePath,
    times: u64,
) -> u32 {
    let mut word = 0;
    for _ in 0..times {
        let next = if word % 2 == 0 { copy } else { path };
        word = theme.meta(rules, next);
    }
    word
}

/// `meta_times TIMES, FILE, LANGUAGES, PATH`: the word of a path, which is worked out so many times.
pub fn meta_times(alloc: Global, case: &Case) -> Result<String, CaseFault> {
    let times = case.number(0)?;
    let file = file_of(alloc, case.text(1)?)?;
    let rules = rules_of(alloc, case, 2)?;
    let path = path_of(alloc, case.text(3)?)?;
    match Theme::from_slice(alloc, file.as_bytes()) {
        Ok(theme) => {
            let copy = path_of(alloc, case.text(3)?)?;
            let word = word_times(&theme, &rules, &path, &copy, times);
            Ok(format!(in alloc; "{word:08x}")?)
        }
        Err(fault) => told(alloc, &fault),
    }
}

/// The parts of names, scope by scope.
fn parts_of(theme: &Theme, rules: &MetaRules, names: &[Name]) -> Parts
    ensures { IsSmall result.look }
{
    let mut parts = theme.base();
    for (place, scope) in names.iter().enumerate() {
        let above = First {
            all: &names[..place],
        };
        parts = theme.pushed(rules, &above, scope, parts);
    }
    parts
}

fn token_type(parts: Parts) -> u8 {
    match parts.token_type {
        TokenType::Other => 0,
        TokenType::Comment => 1,
        TokenType::Text => 2,
        TokenType::Regex => 3,
    }
}

fn printed(alloc: Global, parts: Parts) -> Result<String, CaseFault> {
    let look = parts.look;
    let mut answer = format!(in alloc; "{} {}", parts.language, token_type(parts))?;
    answer.push_str(format!(in alloc;
        " {} {} {}",
        look.font, look.foreground, look.background
    )?.as_str())?;
    Ok(answer)
}

/// The parts of a path, whose last name is put below the others so many times.
fn parts_times(theme: &Theme, rules: &MetaRules, names: &[Name], times: u64) -> Parts {
    let [above @ .., scope] = names else {
        return theme.base();
    };
    let known = parts_of(theme, rules, above);
    let above = First { all: above };
    let mut parts = known;
    for _ in 0..times {
        parts = theme.pushed(rules, &above, scope, known);
    }
    parts
}

/// `pushed_times TIMES, FILE, LANGUAGES, PATH`: the parts of a path, `LANGUAGE TYPE FONT FOREGROUND BACKGROUND`, where
/// those of its last name are worked out so many times from those above it.
pub fn pushed_times(alloc: Global, case: &Case) -> Result<String, CaseFault> {
    let times = case.number(0)?;
    let file = file_of(alloc, case.text(1)?)?;
    let rules = rules_of(alloc, case, 2)?;
    let path = path_of(alloc, case.text(3)?)?;
    match Theme::from_slice(alloc, file.as_bytes()) {
        Ok(theme) => printed(alloc, parts_times(&theme, &rules, path.as_slice(), times)),
        Err(fault) => told(alloc, &fault),
    }
}

/// The parts of a path, whose last name is known and put below the others so many times.
fn known_parts_times(
    alloc: Global,
    theme: &Theme,
    rules: &MetaRules,
    names: &[Name],
    times: u64,
) -> Result<Parts, CaseFault> {
    let [above @ .., scope] = names else {
        return Ok(theme.base());
    };
    let parts = parts_of(theme, rules, above);
    let above = First { all: above };
    let Ok(known) = theme.known(alloc, rules, scope) else {
        return Err(CaseFault::OutOfMemory);
    };
    let mut below = parts;
    for _ in 0..times {
        below = theme.pushed_known(&known, &above, parts);
    }
    Ok(below)
}

/// `known_times TIMES, FILE, LANGUAGES, PATH`: the same, where what the theme says of the last name is found once.
pub fn known_times(alloc: Global, case: &Case) -> Result<String, CaseFault> {
    let times = case.number(0)?;
    let file = file_of(alloc, case.text(1)?)?;
    let rules = rules_of(alloc, case, 2)?;
    let path = path_of(alloc, case.text(3)?)?;
    match Theme::from_slice(alloc, file.as_bytes()) {
        Ok(theme) => printed(
            alloc,
            known_parts_times(alloc, &theme, &rules, path.as_slice(), times)?,
        ),
        Err(fault) => told(alloc, &fault),
    }
}

/// The word of the last of these names below the others.
fn last_word(
    alloc: Global,
    theme: &Theme,
    rules: &MetaRules,
    names: &[Name],
) -> Result<String, CaseFault> {
    let [above @ .., scope] = names else {
        return Err(CaseFault::NoField);
    };
    let known = parts_of(theme, rules, above);
    let word = word_below(theme, rules, &First { all: above }, scope, known);
    Ok(format!(in alloc; "{word:08x}")?)
}

/// `below FILE, LANGUAGES, PATH`: the word of a path, from the parts of the path above its last name.
pub fn below(alloc: Global, case: &Case) -> Result<String, CaseFault> {
    let file = file_of(alloc, case.text(0)?)?;
    let rules = rules_of(alloc, case, 1)?;
    let path = path_of(alloc, case.text(2)?)?;
    match Theme::from_slice(alloc, file.as_bytes()) {
        Ok(theme) => last_word(alloc, &theme, &rules, path.as_slice()),
        Err(fault) => told(alloc, &fault),
    }
}
