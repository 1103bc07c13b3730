//! The defaults of a theme, the numbers of its colours, and its rules with these numbers.
ghost use Rattle.std.specs.Prelude.{◌≡◌, ◌++◌, ℕ, List, [], ◌∷◌, IfOk, codes, option_map, unwrap_or, false, not, ◌&&◌, ◌≤◌};
ghost use Rattle.std.specs.Str.{bytes_eq};
ghost use Rattle.tm_theme.specs.Palette.{background_number, with_default, defaults_from, defaults_of, number_of, has_colour, with_colour, with_some, with_rule, palette_from, palette_of, is_over, rule_is_over, are_too_many, style_of, alternatives_with, rule_alternatives, all_alternatives};

use crate::style::{Alternative, Style};
use std::alloc::Global;
use tm_defs::memory::OutOfMemory;
use tm_defs::texts::{Name, ScopePath};
use tm_theme_file::read::WrittenRule;

/// What plain text looks like.
#[derive(Drop)]
pub struct Defaults {
    pub font: u16,
    /// A colour in upper case.
    pub foreground: Name,
    pub background: Name,
}

/// The colour of a rule, or else another.
fn or_else(colour: &Option<Name>, other: Name) -> Result<Name, OutOfMemory>
    ensures { IfOk result (λ name. name ≡ unwrap_or colour.now other) }
{
    match colour {
        Some(colour) => colour.copy(),
        None => Ok(other),
    }
}

/// The defaults with what a rule without scope sets.
fn with_default(rule: &WrittenRule, defaults: Defaults) -> Result<Defaults, OutOfMemory>
    ensures { IfOk result (λ d. d ≡ with_default rule.now defaults) }
{
    if !rule.plain {
        return Ok(defaults);
    }
    let foreground = or_else(&rule.foreground, defaults.foreground)?;
    let background = or_else(&rule.background, defaults.background)?;
    Ok(Defaults {
        font: rule.font.unwrap_or(defaults.font),
        foreground,
        background,
    })
}

const BLACK: [char; 7] = ['#', '0', '0', '0', '0', '0', '0'];

const WHITE: [char; 7] = ['#', 'F', 'F', 'F', 'F', 'F', 'F'];

fn colour_of(alloc: Global, chars: &[char]) -> Result<Name, OutOfMemory>
    ensures { IfOk result (λ name. name ≡ chars.now) }
{
    Ok(Name::new(Vec::from_slice(alloc, chars)?))
}

/// The defaults of a theme.
pub fn defaults_of(alloc: Global, rules: &[WrittenRule]) -> Result<Defaults, OutOfMemory>
    ensures { IfOk result (λ d. d ≡ defaults_of rules.now) }
{
    let mut defaults = Defaults {
        font: 0,
        foreground: colour_of(alloc, &BLACK)?,
        background: colour_of(alloc, &WHITE)?,
    };
    for rule in rules {
        defaults = with_default(rule, defaults)?;
    }
    Ok(defaults)
}

/// Whether two colours are one.
fn same_colour(a: &Name, b: &Name) -> bool
    ensures { result ≡ bytes_eq a.now b.now }
{
    a.as_slice() == b.as_slice()
}

/// The number of the default background.
pub fn background_number(defaults: &Defaults) -> u16
    ensures is { result ≡ background_number defaults.now }
    ensures small { result ≤ 2 }
{
    if same_colour(&defaults.foreground, &defaults.background) {
        1
    } else {
        2
    }
}

/// The number of a colour in a palette, counted from 1.
fn number_of(palette: &[Name], colour: &Name) -> usize
    ensures { result ≡ number_of palette.now colour.now }
{
    let mut place = 0;
    while place < palette.len() {
        if same_colour(&palette[place], colour) {
            return place + 1;
        }
        place += 1;
    }
    place + 1
}

fn has_colour(palette: &[Name], colour: &Name) -> bool
    ensures { result ≡ has_colour palette.now colour.now }
{
    for c in palette {
        if same_colour(c, colour) {
            return true;
        }
    }
    false
}

/// Adds a colour, where it is new.
fn add_colour(palette: &mut Vec<Name>, colour: &Name) -> Result<(), OutOfMemory>
    ensures { IfOk result (λ _. palette.new.items ≡ with_colour palette.old.items colour.now) }
{
    if !has_colour(palette.as_slice(), colour) {
        palette.push(colour.copy()?)?;
    }
    Ok(())
}

fn add_some(palette: &mut Vec<Name>, colour: &Option<Name>) -> Result<(), OutOfMemory>
    ensures { IfOk result (λ _. palette.new.items ≡ with_some palette.old.items colour.now) }
{
    match colour {
        Some(colour) => add_colour(palette, colour),
        None => Ok(()),
    }
}

/// Adds the colours of a rule with a scope.
fn add_rule(palette: &mut Vec<Name>, rule: &WrittenRule) -> Result<(), OutOfMemory>
    ensures { IfOk result (λ _. palette.new.items ≡ with_rule palette.old.items rule.now) }
{
    if rule.plain {
        return Ok(());
    }
    add_some(palette, &rule.foreground)?;
    add_some(palette, &rule.background)
}

/// The colours of a theme, in the order of their numbers.
pub fn palette_of(
    alloc: Global,
    defaults: &Defaults,
    rules: &[WrittenRule],
) -> Result<Vec<Name>, OutOfMemory>
    ensures { IfOk result (λ palette. palette.items ≡ palette_of defaults.now rules.now) }
{
    let mut palette = Vec::new(alloc);
    palette.push(defaults.foreground.copy()?)?;
    add_colour(&mut palette, &defaults.background)?;
    for rule in rules {
        add_rule(&mut palette, rule)?;
    }
    Ok(palette)
}

fn is_over(limit: usize, palette: &[Name], colour: &Option<Name>) -> bool
    ensures { result ≡ is_over limit palette.now colour.now }
{
    match colour {
        Some(colour) => limit < number_of(palette, colour),
        None => false,
    }
}

fn rule_is_over(palette: &[Name], rule: &WrittenRule) -> bool
    ensures { result ≡ rule_is_over palette.now rule.now }
{
    is_over(511, palette, &rule.foreground) || is_over(255, palette, &rule.background)
}

/// Whether a rule has a colour that the metadata word has no room for.
pub fn are_too_many(palette: &[Name], rules: &[WrittenRule]) -> bool
    ensures { result ≡ are_too_many palette.now rules.now }
{
    for rule in rules {
        if !rule.plain && rule_is_over(palette, rule) {
            return true;
        }
    }
    false
}

/// The number of a colour that is within its limit.
fn numbered(limit: usize, palette: &[Name], colour: &Option<Name>) -> Option<u16>
    requires limit { limit ≤ 511 }
    requires within { is_over limit palette.now colour.now ≡ false }
    ensures { result ≡ option_map (number_of palette.now) colour.now }
{
    match colour {
        Some(colour) => Some(number_of(palette, colour) as u16),
        None => None,
    }
}

/// What a rule sets.
fn style_of(palette: &[Name], rule: &WrittenRule) -> Style
    requires foreground { is_over 511 palette.now rule.now.foreground ≡ false }
    requires background { is_over 255 palette.now rule.now.background ≡ false }
    ensures { result ≡ style_of palette.now rule.now }
{
    Style {
        font: rule.font,
        foreground: numbered(511, palette, &rule.foreground),
        background: numbered(255, palette, &rule.background),
    }
}

fn add_words(
    done: &mut Vec<Alternative>,
    style: Style,
    all: &[ScopePath],
) -> Result<(), OutOfMemory>
    ensures { IfOk result (λ _. done.new.items ≡ done.old.items ++ alternatives_with style all.now) }
{
    for words in all {
        let words = words.copy()?;
        done.push(Alternative { words, style })?;
    }
    Ok(())
}

/// Adds the alternatives of a rule.
fn add_rule_alternatives(
    done: &mut Vec<Alternative>,
    palette: &[Name],
    rule: &WrittenRule,
) -> Result<(), OutOfMemory>
    requires { (not rule.now.plain && rule_is_over palette.now rule.now) ≡ false }
    ensures { IfOk result (λ _. done.new.items ≡ done.old.items ++ rule_alternatives palette.now rule.now) }
{
    if rule.plain {
        return Ok(());
    }
    let style = style_of(palette, rule);
    add_words(done, style, rule.alternatives.as_slice())
}

/// The alternatives of a theme's rules.
pub fn all_alternatives(
    alloc: Global,
    palette: &[Name],
    rules: &[WrittenRule],
) -> Result<Vec<Alternative>, OutOfMemory>
    requires { are_too_many palette.now rules.now ≡ false }
    ensures { IfOk result (λ done. done.items ≡ all_alternatives palette.now rules.now) }
{
    let mut done = Vec::new(alloc);
    for rule in rules {
        add_rule_alternatives(&mut done, palette, rule)?;
    }
    Ok(done)
}
