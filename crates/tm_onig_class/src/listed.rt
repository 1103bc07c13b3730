//! The sets that have names of their own.
ghost use Rattle.std.specs.Prelude.{◌≡◌, ℕ, ◌≤◌, ◌||◌, ◌&&◌, not, IfOk, codes, []};
ghost use Rattle.regex_class.specs.Ranges.{in_ranges};
ghost use Rattle.ucd_category.specs.GeneralCategory.{general_category_eq};
ghost use Rattle.ucd_sets.specs.Sets.{in_set};
ghost use Rattle.tm_onig_class.specs.Members.{has_char, IsChar};
ghost use Rattle.tm_onig_class.specs.Listed.{in_one, among, in_space, in_graph, in_listed, listed_name};

use crate::sets::Set;
use regex_class::ClassRange;
use std::alloc::Global;
use tm_defs::memory::OutOfMemory;
use ucd_category::{GeneralCategory, GeneralCategoryGroup};
use ucd_sets as kit;

/// A set that has a name of its own.
#[derive(Clone, Copy, Debug, PartialEq, Eq)]
pub enum Listed {
    Word,
    Digit,
    Space,
    Xdigit,
    Alpha,
    Alnum,
    Blank,
    Cntrl,
    Lower,
    Upper,
    Punct,
    Graph,
    Print,
    Ascii,
    Any,
}

impl Listed {
    /// The name, in ASCII.
    pub fn name(self) -> &'static [u8]
        ensures { result.now ≡ codes (listed_name self) }
    {
        match self {
            Listed::Word => b"word",
            Listed::Digit => b"digit",
            Listed::Space => b"space",
            Listed::Xdigit => b"xdigit",
            Listed::Alpha => b"alpha",
            Listed::Alnum => b"alnum",
            Listed::Blank => b"blank",
            Listed::Cntrl => b"cntrl",
            Listed::Lower => b"lower",
            Listed::Upper => b"upper",
            Listed::Punct => b"punct",
            Listed::Graph => b"graph",
            Listed::Print => b"print",
            Listed::Ascii => b"ascii",
            Listed::Any => b"any",
        }
    }
}

const LETTER: kit::Set = kit::Set::CategoryGroup(GeneralCategoryGroup::Letter);

const MARK: kit::Set = kit::Set::CategoryGroup(GeneralCategoryGroup::Mark);

const PUNCTUATION: kit::Set = kit::Set::CategoryGroup(GeneralCategoryGroup::Punctuation);

const DECIMAL: kit::Set = kit::Set::Category(GeneralCategory::DecimalNumber);

const CONNECTOR: kit::Set = kit::Set::Category(GeneralCategory::ConnectorPunctuation);

const SPACE: kit::Set = kit::Set::Category(GeneralCategory::SpaceSeparator);

const LINE: kit::Set = kit::Set::Category(GeneralCategory::LineSeparator);

const PARAGRAPH: kit::Set = kit::Set::Category(GeneralCategory::ParagraphSeparator);

const CONTROL: kit::Set = kit::Set::Category(GeneralCategory::Control);

const UNASSIGNED: kit::Set = kit::Set::Category(GeneralCategory::Unassigned);

const SURROGATE: kit::Set = kit::Set::Category(GeneralCategory::Surrogate);

const LOWER: kit::Set = kit::Set::Category(GeneralCategory::LowercaseLetter);

const UPPER: kit::Set = kit::Set::Category(GeneralCategory::UppercaseLetter);

fn has_kind(category: GeneralCategory, kind: GeneralCategory) -> bool
    ensures { result ≡ general_category_eq category kind }
{
    category.number() == kind.number()
}

/// Whether the character is in `word`.
pub fn is_word(c: char) -> bool
    ensures { result ≡ in_listed Listed.Word c }
{
    let category = GeneralCategory::for_char(c);
    GeneralCategoryGroup::Letter.contains(category)
        | GeneralCategoryGroup::Mark.contains(category)
        | has_kind(category, GeneralCategory::DecimalNumber)
        | has_kind(category, GeneralCategory::ConnectorPunctuation)
}

/// Whether the character is in `space`.
pub fn is_space(c: char) -> bool
    ensures { result ≡ in_listed Listed.Space c }
{
    let category = GeneralCategory::for_char(c);
    let code = c as u32;
    has_kind(category, GeneralCategory::SpaceSeparator)
        | has_kind(category, GeneralCategory::LineSeparator)
        | has_kind(category, GeneralCategory::ParagraphSeparator)
        | ((0x09 <= code) & (code <= 0x0D))
        | (code == 0x85)
}

/// The code points of the sets, and those of the ranges.
fn collect(
    alloc: Global,
    sets: &[kit::Set],
    ranges: &[ClassRange],
) -> Result<Vec<ClassRange>, OutOfMemory>
    ensures { IfOk result (λ out. (c : ℕ) → c ≤ 0x10FFFF → in_ranges out.items c ≡ among sets.now ranges.now c) }
{
    let mut out = Vec::from_slice(alloc, ranges)?;
    for i in 0..sets.len() {
        let part = sets[i].ranges(alloc)?;
        out.extend_from_slice(&part)?;
    }
    Ok(out)
}

/// The characters of the sets and of the ranges.
fn set_among(alloc: Global, sets: &[kit::Set], ranges: &[ClassRange]) -> Result<Set, OutOfMemory>
    ensures { IfOk result (λ s. (c : ℕ) → IsChar c → has_char s c ≡ among sets.now ranges.now c) }
{
    Set::from_codes(alloc, &collect(alloc, sets, ranges)?)
}

/// White space.
fn space(alloc: Global) -> Result<Set, OutOfMemory>
    ensures { IfOk result (λ s. (c : ℕ) → IsChar c → has_char s c ≡ in_space c) }
{
    set_among(
        alloc,
        &[SPACE, LINE, PARAGRAPH],
        &[(0x09, 0x0D), (0x85, 0x85)],
    )
}

/// All but white space, controls and code points without a character.
fn graph(alloc: Global) -> Result<Set, OutOfMemory>
    ensures { IfOk result (λ s. (c : ℕ) → IsChar c → has_char s c ≡ in_graph c) }
{
    let blanks = space(alloc)?;
    blanks
        .union(&set_among(alloc, &[CONTROL, UNASSIGNED, SURROGATE], &[])?)?
        .complement()
}

impl Set {
    pub(crate) fn of_kit(alloc: Global, set: kit::Set) -> Result<Set, OutOfMemory>
        ensures { IfOk result (λ s. (c : ℕ) → IsChar c → has_char s c ≡ in_set set c) }
    {
        set_among(alloc, &[set], &[])
    }

    /// A set that has a name of its own.
    pub fn listed(alloc: Global, listed: Listed) -> Result<Set, OutOfMemory>
        ensures { IfOk result (λ s. (c : ℕ) → IsChar c → has_char s c ≡ in_listed listed c) }
    {
        match listed {
            Listed::Word => set_among(alloc, &[LETTER, MARK, DECIMAL, CONNECTOR], &[]),
            Listed::Digit => set_among(alloc, &[DECIMAL], &[]),
            Listed::Space => space(alloc),
            Listed::Xdigit => set_among(alloc, &[], &[(0x30, 0x39), (0x41, 0x46), (0x61, 0x66)]),
            Listed::Alpha => set_among(alloc, &[LETTER, MARK], &[]),
            Listed::Alnum => set_among(alloc, &[LETTER, MARK, DECIMAL], &[]),
            Listed::Blank => set_among(alloc, &[SPACE], &[(0x09, 0x09)]),
            Listed::Cntrl => set_among(alloc, &[CONTROL], &[]),
            Listed::Lower => set_among(alloc, &[LOWER], &[]),
            Listed::Upper => set_among(alloc, &[UPPER], &[]),
            Listed::Punct => set_among(
                alloc,
                &[PUNCTUATION],
                &[
                    (0x24, 0x24),
                    (0x2B, 0x2B),
                    (0x3C, 0x3E),
                    (0x5E, 0x5E),
                    (0x60, 0x60),
                    (0x7C, 0x7C),
                    (0x7E, 0x7E),
                ],
            ),
            Listed::Graph => graph(alloc),
            Listed::Print => graph(alloc)?.union(&set_among(alloc, &[SPACE], &[])?),
            Listed::Ascii => set_among(alloc, &[], &[(0x00, 0x7F)]),
            Listed::Any => set_among(alloc, &[kit::Set::Any], &[]),
        }
    }
}
