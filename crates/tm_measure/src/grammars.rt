//! How many rules a grammar file has, and how many candidates all of them have.

use anyhow::{Result, bail};
use std::io::Read;
use tm_grammar::grammar::RawGrammar;
use tm_rules::grammars::Grammars;
use tm_rules::rules::Rules;

/// How many candidates the lists of all rules have.
fn candidates(rules: &Rules) -> u64 {
    let mut count: u64 = 0;
    for number in 0..rules.len() {
        count = count.saturating_add(rules.candidates(number).len() as u64);
    }
    count
}

/// Prints the count of rules and of candidates of the grammar on standard input.
pub(crate) fn count(rt: &HostRuntime) -> Result<()> {
    let mut bytes = Vec::new(rt.alloc());
    rt.reader().read_to_end(&mut bytes)?;
    let Ok(root) = RawGrammar::from_slice(rt.alloc(), bytes.as_slice()) else {
        bail!("no grammar");
    };
    let parts = Grammars {
        root,
        more: Vec::new(rt.alloc()),
        injected: Vec::new(rt.alloc()),
    };
    let Ok(rules) = Rules::build(rt.alloc(), &parts) else {
        bail!("too many rules, or out of memory");
    };
    let (number, all) = (rules.len(), candidates(&rules));
    println!(rt; "rules {number}")?;
    println!(rt; "candidates {all}")?;
    Ok(())
}
