//! The raw tree of a grammar file: what its rules say, before anything is made of it (TextMate 1.x manual,
//! Language Grammars, with the keys of vscode-textmate).
ghost use Rattle.std.specs.Prelude.{◌≡◌};

use sqlite_items::Items;
use tm_defs::texts::Name;

/// Captures with the numbers of their groups, below 65,536, in the order of the walk. Of equal numbers the
/// last counts.
pub type RawCaptures = Items<(u32, RawRule)>;

/// The rules of a list, in its order.
pub type RawList = Items<RawRule>;

/// The rules of an object with their names, in the order of the names' bytes.
pub type RawNames = Items<(Name, RawRule)>;

/// A rule as its object says it: each text as it stands, none where the key is absent.
#[derive(Drop)]
pub struct RawRule {
    /// The JSON Pointer of the rule, from the file's root.
    pub path: Name,
    pub name: Option<Name>,
    pub content_name: Option<Name>,
    pub match_text: Option<Name>,
    pub begin: Option<Name>,
    pub end_text: Option<Name>,
    pub while_text: Option<Name>,
    pub include: Option<Name>,
    pub captures: Option<RawCaptures>,
    pub begin_captures: Option<RawCaptures>,
    pub end_captures: Option<RawCaptures>,
    pub while_captures: Option<RawCaptures>,
    pub patterns: Option<RawList>,
    /// Empty where the key is absent.
    pub repository: RawNames,
    /// Whether `end` is tried last: true under `applyEndPatternLast`, also where that is a number but 0.
    pub end_last: bool,
}

impl RawRule {
    ghost use Rattle.tm_grammar.specs.Tree.{blank};
    ghost use Rattle.tm_grammar.specs.declared.raw.RawRule.TheViews.{roll-RawRule};

    /// The rule at a path with these keys alone.
    pub(crate) fn plain(
        path: Name,
        name: Option<Name>,
        content_name: Option<Name>,
        patterns: Option<RawList>,
        repository: RawNames,
    ) -> RawRule
        ensures { result ≡ roll-RawRule (record (blank path) { name = name; content_name = content_name; patterns = patterns; repository = repository }) }
    {
        RawRule {
            path,
            name,
            content_name,
            match_text: None,
            begin: None,
            end_text: None,
            while_text: None,
            include: None,
            captures: None,
            begin_captures: None,
            end_captures: None,
            while_captures: None,
            patterns,
            repository,
            end_last: false,
        }
    }
}
