//! The tokenizer of rules of patterns.
ghost use Rattle.std.specs.Prelude.{◌≡◌, ◌↔◌, ◌<◌, ◌++◌, ◌∷◌, [], length, flat_map, IfOk, IsErrOf};
ghost use Rattle.tm_line.specs.Setting.{setting_of, setting_with};
ghost use Rattle.tm_line_lint.specs.Unread.{unread_in};
ghost use Rattle.tm_rules.specs.Rules.{plain_rules};
ghost use Rattle.tm_rules.specs.Sizes.{rule_limit};
ghost use Rattle.tm_rules.specs.declared.grammars.RulesFault.TheVariants as rules_fault;
ghost use Rattle.tm_template.specs.Names.{words_of};

use crate::prepared::Prepared;
use crate::rules::LineRoom;
use std::alloc::{AllocError, Global};
use std::marker::Model;
use std::sync::ledger::Ledger;
use tm_defs::frames::StateId;
use tm_defs::memory::OutOfMemory;
use tm_defs::steps::Steps;
use tm_defs::tables::States;
use tm_defs::texts::{Line, Name, ScopePath};
use tm_defs::tokenizer::{LineFault, LineOut, LineTok};
use tm_line_lint::Unread;
use tm_line_parts::line::tokenize_line;
use tm_line_parts::rules::Job;
use tm_onig_atom::store::Sets;
use tm_rules::grammars::{Grammars, RulesFault};
use tm_rules::rules::Rules;
use tm_template::names::words;

/// What a setting is built from.
#[derive(Drop)]
pub struct Parts {
    pub grammars: Grammars,
}

/// A setting. Contracts see the scopes of every token and the rules of its grammars by number; rule 0 is
/// the root.
#[derive(Drop)]
pub struct Setting {
    scopes: ScopePath,
    rules: Prepared,
    unread: Vec<Unread>,
    alloc: Global,
}

impl Model for Setting {
    ghost use Rattle.std.specs.Prelude.{◌≡◌, flat_map};
    ghost use Rattle.tm_line.specs.Setting.{Setting, setting_with};
    ghost use Rattle.tm_line_lint.specs.Unread.{unread_in};

    ghost Value = { Setting };

    ghost view = { λ a. setting_with a.scopes a.rules };

    ghost invariant = { λ a. a.unread.items ≡ flat_map unread_in a.rules };
}

/// A setting of these rules. The scope name of the root grammar gives the scopes.
fn setting_of(alloc: Global, scope_name: &Name, rules: Rules) -> Result<Setting, OutOfMemory>
    ensures { IfOk result (λ setting. setting ≡ setting_with (words_of scope_name.now) rules) }
{
    let scopes = words(alloc, scope_name)?;
    let mut sets = Sets::new(alloc);
    let rules = Prepared::build(alloc, &mut sets, rules)?;
    let unread = rules.unreadable(alloc, &mut sets)?;
    Ok(Setting {
        scopes,
        rules,
        unread,
        alloc,
    })
}

impl Setting {
    /// A setting of these grammars, whose patterns are read once and for all. Each line takes its buffers
    /// from `alloc`. A pattern that is unreadable matches nowhere. Patterns of `while` are kept and not used: a rule
    /// with `while` begins, and does not end.
    pub fn build(alloc: Global, parts: Parts) -> Result<Self, RulesFault>
        ensures setting { IfOk result (λ setting. setting ≡ setting_of parts.grammars) }
        // They are refused exactly where there are more than 65,535 rules.
        ensures many { IsErrOf result rules_fault.TooManyRules ↔ (rule_limit < length (plain_rules parts.grammars)) }
    {
        let rules = match Rules::build(alloc, &parts.grammars) {
            Ok(rules) => rules,
            Err(fault) => return Err(fault),
        };
        match setting_of(alloc, parts.grammars.root.scope_name(), rules) {
            Ok(setting) => Ok(setting),
            Err(_) => Err(RulesFault::OutOfMemory),
        }
    }

    /// The unreadable patterns, by rising number of their rules, and of one rule in the order begin, end,
    /// match, while.
    pub fn unreadable(&self) -> &[Unread]
        ensures { result.now ≡ flat_map unread_in self.now.rules }
    {
        self.unread.as_slice()
    }
}

/// The line with its line break.
fn with_break(alloc: Global, line: &Line) -> Result<Vec<char>, AllocError>
    ensures { IfOk result (λ text. text.items ≡ line.now ++ 10 ∷ []) }
{
    let mut text = Vec::new(alloc);
    text.extend_from_slice(line.as_slice())?;
    text.push('\n')?;
    Ok(text)
}

impl LineTok for Setting {
    ghost use Rattle.tm_line.specs.Setting.{Setting};
    ghost use Rattle.tm_line.specs.Tokenizing.{rules_tokenized, rules_cost, rules_made};

    ghost Plain = { Setting };

    ghost plain = { λ setting. setting };

    ghost tokenized = { rules_tokenized };

    ghost plain_cost = { rules_cost };

    ghost entries_made = { rules_made };

    fn line<S: States, L: Ledger>(
        &self,
        table: &mut S,
        start: StateId,
        line: &Line,
        budget: u64,
        steps: &mut Steps<L>,
    ) -> Result<LineOut, LineFault> {
        steps.tick();
        let Ok(text) = with_break(self.alloc, line) else {
            return Err(LineFault::OutOfMemory);
        };
        let job = Job {
            alloc: self.alloc,
            rules: &self.rules,
            text: text.as_slice(),
        };
        let mut room = LineRoom::new(self.alloc);
        tokenize_line(&job, &mut room, table, &self.scopes, start, budget)
    }
}
