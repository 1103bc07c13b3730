//! Themes, and the metadata of paths by them.
//!
//! The text of a file stands with `'` in place of `"`.

use crate::callers::right_rules;
use crate::texts::{name_of, path_of};
use serde_json::Value;
use std::alloc::Global;
use tm_cases::{Case, CaseFault};
use tm_defs::texts::Name;
use tm_selector::selector::Selector;
use tm_theme::fault::ThemeFault;
use tm_theme::rules::MetaRules;
use tm_theme::theme::Theme;

/// The file of a case.
pub(crate) fn file_of(alloc: Global, text: &str) -> Result<String, CaseFault> {
    let mut file = String::new(alloc);
    for c in text.chars() {
        file.push(if c == '\'' { '"' } else { c })?;
    }
    Ok(file)
}

fn with_path(alloc: Global, kind: &str, path: &Name) -> Result<String, CaseFault> {
    let mut answer = String::from_str(alloc, kind)?;
    answer.push(' ')?;
    for c in path.as_slice() {
        answer.push(*c)?;
    }
    Ok(answer)
}

/// Why a file is refused.
pub(crate) fn told(alloc: Global, fault: &ThemeFault) -> Result<String, CaseFault> {
    match fault {
        ThemeFault::NotJson => Ok(String::from_str(alloc, "NotJson")?),
        ThemeFault::BadShape(path) => with_path(alloc, "BadShape", path),
        ThemeFault::BadColour(path) => with_path(alloc, "BadColour", path),
        ThemeFault::TooManyColours => Ok(String::from_str(alloc, "TooManyColours")?),
        ThemeFault::OutOfMemory => Err(CaseFault::OutOfMemory),
    }
}

pub(crate) fn languages_of(alloc: Global, value: &Value) -> Result<Vec<(Name, u8)>, CaseFault> {
    let mut languages = Vec::new(alloc);
    for pair in value.as_array().ok_or(CaseFault::NoField)? {
        let name = pair
            .get(0)
            .and_then(Value::as_str)
            .ok_or(CaseFault::NoField)?;
        let number = pair
            .get(1)
            .and_then(Value::as_u64)
            .ok_or(CaseFault::NoField)?;
        let number = u8::try_from(number).map_err(|_| CaseFault::NoField)?;
        languages.push((name_of(alloc, name)?, number))?;
    }
    Ok(languages)
}

fn selectors_of(alloc: Global, value: &Value) -> Result<Vec<Selector>, CaseFault> {
    let mut selectors = Vec::new(alloc);
    for text in value.as_array().ok_or(CaseFault::NoField)? {
        let text = name_of(alloc, text.as_str().ok_or(CaseFault::NoField)?)?;
        match Selector::parse(alloc, &text) {
            Ok(selector) => selectors.push(selector)?,
            Err(_) => return Err(CaseFault::OutOfMemory),
        }
    }
    Ok(selectors)
}

/// The metadata of the paths from a field on.
fn words(
    alloc: Global,
    case: &Case,
    theme: &Theme,
    rules: &MetaRules,
    first: usize,
) -> Result<String, CaseFault> {
    let mut answer = String::new(alloc);
    for place in first..case.len() {
        let path = path_of(alloc, case.text(place)?)?;
        if place > first {
            answer.push(' ')?;
        }
        let word = theme.meta(rules, &path);
        answer.push_str(format!(in alloc; "{word:08x}")?.as_str())?;
    }
    Ok(answer)
}

fn answer(
    alloc: Global,
    case: &Case,
    rules: &MetaRules,
    first: usize,
) -> Result<String, CaseFault> {
    let file = file_of(alloc, case.text(0)?)?;
    match Theme::from_slice(alloc, file.as_bytes()) {
        Ok(theme) => words(alloc, case, &theme, rules, first),
        Err(fault) => told(alloc, &fault),
    }
}

/// `theme FILE, PATH, PATH, ..`
pub fn by_theme(alloc: Global, case: &Case) -> Result<String, CaseFault> {
    let rules = MetaRules {
        languages: Vec::new(alloc),
        unbalanced: Vec::new(alloc),
    };
    answer(alloc, case, &rules, 1)
}

/// `theme_with FILE, LANGUAGES, SELECTORS, PATH, PATH, ..`
pub fn by_theme_with(alloc: Global, case: &Case) -> Result<String, CaseFault> {
    let rules = MetaRules {
        languages: languages_of(alloc, case.value(1)?)?,
        unbalanced: selectors_of(alloc, case.value(2)?)?,
    };
    answer(alloc, case, &rules, 3)
}

/// `plain PATH, ..`: by the theme without rules.
pub fn by_plain(alloc: Global, case: &Case) -> Result<String, CaseFault> {
    let rules = MetaRules {
        languages: Vec::new(alloc),
        unbalanced: Vec::new(alloc),
    };
    match Theme::plain(alloc) {
        Ok(theme) => words(alloc, case, &theme, &rules, 0),
        Err(_) => Err(CaseFault::OutOfMemory),
    }
}

/// `refused FILE`: why, or `right`.
pub fn refused(alloc: Global, case: &Case) -> Result<String, CaseFault> {
    let file = file_of(alloc, case.text(0)?)?;
    match Theme::from_slice(alloc, file.as_bytes()) {
        Ok(_) => Ok(String::from_str(alloc, "right")?),
        Err(fault) => told(alloc, &fault),
    }
}

/// A theme of so many rules, each with a colour of its own as `foreground` or `background`.
fn many(alloc: Global, count: u64, key: &str) -> Result<String, CaseFault> {
    let mut file = String::from_str(alloc, "{\"tokenColors\":[")?;
    for place in 0..count {
        if place > 0 {
            file.push(',')?;
        }
        let number = place % 0x100_0000 + 1;
        file.push_str(format!(in alloc;
            "{{\"scope\":\"a\",\"settings\":{{\"{key}\":\"#{number:06x}\"}}}}"
        )?.as_str())?;
    }
    file.push_str("]}")?;
    Ok(file)
}

/// `many COUNT, KEY`: so many colours, one a rule, beside the two defaults; why they are refused, or the metadata of
/// `a`, which the last rule colours.
pub fn by_many(alloc: Global, case: &Case) -> Result<String, CaseFault> {
    let file = many(alloc, case.number(0)?, case.text(1)?)?;
    let rules = MetaRules {
        languages: Vec::new(alloc),
        unbalanced: Vec::new(alloc),
    };
    match Theme::from_slice(alloc, file.as_bytes()) {
        Ok(theme) => {
            let word = theme.meta(&rules, &path_of(alloc, "a")?);
            Ok(format!(in alloc; "{word:08x}")?)
        }
        Err(fault) => told(alloc, &fault),
    }
}

/// `rules FILE`: how many rules the file has, where nothing is wrong in it, else `wrong`.
pub fn counted(alloc: Global, case: &Case) -> Result<String, CaseFault> {
    let file = file_of(alloc, case.text(0)?)?;
    let Ok(value) = Value::from_slice(alloc, file.as_bytes()) else {
        return Ok(String::from_str(alloc, "NotJson")?);
    };
    match right_rules(alloc, &value) {
        Ok(Some(rules)) => {
            let count = rules.len();
            Ok(format!(in alloc; "{count}")?)
        }
        Ok(None) => Ok(String::from_str(alloc, "wrong")?),
        Err(_) => Err(CaseFault::OutOfMemory),
    }
}
