//! Names and paths of scopes, of texts.

use std::alloc::Global;
use tm_cases::CaseFault;
use tm_defs::texts::{Name, ScopePath};

/// A text as a name.
pub fn name_of(alloc: Global, text: &str) -> Result<Name, CaseFault> {
    let mut chars = Vec::new(alloc);
    for c in text.chars() {
        chars.push(c)?;
    }
    Ok(Name::new(chars))
}

/// A path of scopes with spaces between them.
pub fn path_of(alloc: Global, text: &str) -> Result<ScopePath, CaseFault> {
    let mut names = Vec::new(alloc);
    for scope in text.split(' ') {
        if !scope.is_empty() {
            names.push(name_of(alloc, scope)?)?;
        }
    }
    Ok(ScopePath::new(names))
}
