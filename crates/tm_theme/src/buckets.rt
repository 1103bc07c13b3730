//! The alternatives of a theme in buckets, so that a scope is looked up by its pieces.
//!
//! A word that matches a scope is the scope, or what stands in it before one of its dots. So the alternatives that match
//! are those whose first word is one of these pieces, and a scope has few of them. A longer piece has more dots, so what it
//! finds is stronger; in a bucket the strongest comes first. What is found first is kept.
//!
//! ```text
//! on comment.line.t: the pieces comment.line.t, comment.line, comment
//! ```
ghost use Rattle.std.specs.Prelude.{◌≡◌, ◌<◌, ◌≤◌, ◌+◌, ◌++◌, ◌==◌, ℕ, List, [], true, false, length, insert, replicate, unwrap_or, IfOk, slice_get};
ghost use Rattle.std.specs.Option.{option_or};
ghost use Rattle.tm_meta.specs.Metadata.{in_word, type_at, decided_type};
ghost use Rattle.tm_selector.specs.Names.{ends_a_part};
ghost use Rattle.tm_theme.specs.Buckets.{kept, unset, alternative_at, character, slot, fits, with_one, with_bucket, with_piece, with_pieces, found_style, with_place, with_alternative, with_style, IsTable};
ghost use Rattle.tm_theme.specs.Places.{is_first, bucket_places, piece_places, scope_places, parents_match, with_known_one, with_known, AreFor};
ghost use Rattle.tm_theme.specs.Style.{styled};

use crate::strength::{climb, is_weaker};
use crate::style::{Alternative, Look, Style};
use std::alloc::Global;
use std::marker::Model;
use tm_defs::memory::OutOfMemory;
use tm_defs::texts::Name;
use tm_meta::metadata::{TokenType, type_of};
use tm_selector::names::Scopes;

/// What a scope says: its token type, and what the alternatives set on it.
#[derive(Clone, Copy, Debug, PartialEq, Eq)]
pub struct Said {
    pub token_type: Option<TokenType>,
    pub style: Style,
}

/// The places of alternatives, the strongest first.
#[derive(Drop)]
pub struct Bucket {
    places: Vec<usize>,
}

impl Model for Bucket {
    ghost use Rattle.std.specs.Prelude.{ℕ, List};

    ghost Value = { List ℕ };

    ghost view = { λ b. b.places.items };
}

/// A character of a word by its number, or 0 past the end.
fn character(word: &[char], place: usize) -> usize
    ensures is { result ≡ character word.now place }
    ensures small { result < 0x11_0000 }
{
    match word.get(place) {
        Some(c) => *c as usize,
        None => 0,
    }
}

/// The bucket of a word. Words that differ may share one.
fn slot(word: &[char], count: usize) -> usize
    requires { 0 < count }
    ensures is { result ≡ slot word.now count }
    ensures within { result < count }
{
    let length = word.len();
    let last = character(word, length.saturating_sub(1));
    let fourth = character(word, length.saturating_sub(4));
    let middle = character(word, length / 2);
    (length + 31 * last + 131 * fourth + 1021 * middle) % count
}

/// What the first style sets, and for the rest the second one.
fn kept(first: Style, second: Style) -> Style
    ensures { result ≡ kept first second }
{
    Style {
        font: first.font.or(second.font),
        foreground: first.foreground.or(second.foreground),
        background: first.background.or(second.background),
    }
}

/// Whether the second style sets what the first one does not.
fn adds(first: Style, second: Style) -> bool
    ensures { result ≡ false → kept first second ≡ first }
{
    (first.font.is_none() && second.font.is_some())
        || (first.foreground.is_none() && second.foreground.is_some())
        || (first.background.is_none() && second.background.is_some())
}

/// Whether the first word is this piece of a scope, and the others match scopes above it.
fn fits<S: Scopes>(words: &[Name], piece: &[char], above: &S) -> bool
    ensures { result ≡ fits piece.now (S.names above.now) words.now }
{
    match words {
        [] => false,
        [word, parents @ ..] => word.as_slice() == piece && climb(above, parents),
    }
}

/// The style with what an alternative sets, where it fits. One that would set nothing new is not looked at.
fn with_one<S: Scopes>(a: &Alternative, piece: &[char], above: &S, style: Style) -> Style
    ensures { result ≡ with_one piece.now (S.names above.now) style a.now }
{
    if adds(style, a.style) && fits(a.words.as_slice(), piece, above) {
        kept(style, a.style)
    } else {
        style
    }
}

/// The style with what the alternative at a place sets, where it fits.
fn with_place_of<S: Scopes>(
    all: &[Alternative],
    place: usize,
    piece: &[char],
    above: &S,
    style: Style,
) -> Style
    ensures { result ≡ with_one piece.now (S.names above.now) style (alternative_at all.now place) }
{
    match all.get(place) {
        Some(a) => with_one(a, piece, above, style),
        None => style,
    }
}

/// The style with what the alternatives of a bucket set.
fn with_bucket<S: Scopes>(
    all: &[Alternative],
    bucket: &Bucket,
    piece: &[char],
    above: &S,
    style: Style,
) -> Style
    ensures { result ≡ with_bucket all.now piece.now (S.names above.now) style bucket.now }
{
    let mut found = style;
    let places = bucket.places.as_slice();
    for place in places {
        found = with_place_of(all, *place, piece, above, found);
    }
    found
}

/// Whether a word that matches the scope may end here.
fn ends_a_part(scope: &[char], end: usize) -> bool
    ensures { result ≡ ends_a_part (slice_get scope.now end) }
{
    match scope.get(end) {
        Some(c) => *c == '.',
        None => true,
    }
}

/// The style with what those alternatives set whose first word is the scope up to this end, if a word may end there.
fn with_piece<S: Scopes>(
    all: &[Alternative],
    buckets: &[Bucket],
    above: &S,
    scope: &[char],
    style: Style,
    end: usize,
) -> Style
    requires some { 0 < length buckets.now }
    requires within { end ≤ length scope.now }
    ensures { result ≡ with_piece all.now buckets.now (S.names above.now) scope.now style end }
{
    if !ends_a_part(scope, end) {
        return style;
    }
    let piece = &scope[..end];
    let bucket = &buckets[slot(piece, buckets.len())];
    with_bucket(all, bucket, piece, above, style)
}

/// Whether the character at a place ends neither a word nor a part.
fn goes_on(scope: &[char], place: usize) -> bool
    ensures word { result ≡ in_word scope.now place }
    ensures part { result ≡ true → ends_a_part (slice_get scope.now place) ≡ false }
{
    match scope.get(place) {
        Some(c) => c.is_ascii_lowercase() || c.is_ascii_alphanumeric() || *c == '_',
        None => false,
    }
}

/// What is said with the character at a place: a word may begin behind it, and a part may end before it.
fn with_character<S: Scopes>(
    all: &[Alternative],
    buckets: &[Bucket],
    above: &S,
    scope: &[char],
    said: Said,
    place: usize,
) -> Said
    requires some { 0 < length buckets.now }
    requires within { place < length scope.now }
    ensures style { result.style ≡ with_piece all.now buckets.now (S.names above.now) scope.now said.style place }
    ensures token_type { result.token_type ≡ option_or (type_at scope.now (place + 1)) said.token_type }
{
    if goes_on(scope, place) {
        return said;
    }
    Said {
        token_type: type_of(scope, place + 1).or(said.token_type),
        style: with_piece(all, buckets, above, scope, said.style, place),
    }
}

/// What a scope below others says, in one pass over its characters from the last to the first.
fn said_of<S: Scopes>(all: &[Alternative], buckets: &[Bucket], above: &S, scope: &[char]) -> Said
    requires { 0 < length buckets.now }
    ensures style { result.style ≡ found_style all.now buckets.now (S.names above.now) scope.now }
    ensures token_type { result.token_type ≡ decided_type scope.now }
{
    let mut place = scope.len();
    let nothing = Style {
        font: None,
        foreground: None,
        background: None,
    };
    let mut said = Said {
        token_type: None,
        style: with_piece(all, buckets, above, scope, nothing, place),
    };
    while place > 0 {
        place -= 1;
        said = with_character(all, buckets, above, scope, said, place);
    }
    Said {
        token_type: type_of(scope, 0).or(said.token_type),
        style: said.style,
    }
}

/// The words of the alternative at a place.
fn words_at(all: &[Alternative], place: usize) -> &[Name]
    ensures { result.now ≡ (alternative_at all.now place).words }
{
    match all.get(place) {
        Some(a) => a.words.as_slice(),
        None => &[],
    }
}

/// Where the new place stands: before the first that is weaker.
fn place_of(all: &[Alternative], places: &[usize], new: usize) -> usize
    ensures is { insert places.now result new ≡ with_place all.now new places.now }
    ensures within { result ≤ length places.now }
{
    let mut at = 0;
    while at < places.len() {
        if is_weaker(words_at(all, places[at]), words_at(all, new)) {
            return at;
        }
        at += 1;
    }
    at
}

fn put_place(all: &[Alternative], bucket: &mut Bucket, new: usize) -> Result<(), OutOfMemory>
    ensures { IfOk result (λ _. bucket.new ≡ with_place all.now new bucket.old) }
{
    let at = place_of(all, bucket.places.as_slice(), new);
    bucket.places.insert(at, new)?;
    Ok(())
}

/// Puts an alternative into the bucket of its first word.
fn put_alternative(
    all: &[Alternative],
    buckets: &mut Vec<Bucket>,
    new: usize,
) -> Result<(), OutOfMemory>
    requires { 0 < length buckets.old.items }
    ensures { IfOk result (λ _. buckets.new.items ≡ with_alternative all.now new buckets.old.items) }
{
    match words_at(all, new) {
        [] => Ok(()),
        [word, ..] => {
            let place = slot(word.as_slice(), buckets.len());
            put_place(all, &mut buckets[place], new)
        }
    }
}

/// So many buckets with nothing in them.
fn empty_buckets(alloc: Global, count: usize) -> Result<Vec<Bucket>, OutOfMemory>
    ensures { IfOk result (λ buckets. buckets.items ≡ replicate count []) }
{
    let mut buckets = Vec::new(alloc);
    let mut made = 0;
    while made < count {
        buckets.push(Bucket {
            places: Vec::new(alloc),
        })?;
        made += 1;
    }
    Ok(buckets)
}

/// How many buckets so many alternatives are put into: so many that most have nothing in them, since most pieces of a
/// scope are the first word of none.
fn bucket_count(alternatives: usize) -> usize
    ensures { 0 < result }
{
    8 * alternatives.min(0x1_0000) + 1
}

/// The alternatives in buckets.
fn buckets_of(alloc: Global, all: &[Alternative]) -> Result<Vec<Bucket>, OutOfMemory>
    ensures { IfOk result (λ buckets. IsTable all.now buckets.items) }
{
    let mut buckets = empty_buckets(alloc, bucket_count(all.len()))?;
    let mut place = all.len();
    while place > 0 {
        place -= 1;
        put_alternative(all, &mut buckets, place)?;
    }
    Ok(buckets)
}

/// The look with what a style sets.
fn with_style(look: Look, style: Style) -> Look
    ensures { result ≡ with_style look style }
{
    Look {
        font: style.font.unwrap_or(look.font),
        foreground: style.foreground.unwrap_or(look.foreground),
        background: style.background.unwrap_or(look.background),
    }
}

/// Whether the first word of the alternative at a place is this piece of a scope.
fn begins_with(all: &[Alternative], place: usize, piece: &[char]) -> bool
    ensures { result ≡ is_first piece.now (alternative_at all.now place).words }
{
    match words_at(all, place) {
        [] => false,
        [word, ..] => word.as_slice() == piece,
    }
}

/// Adds the places of those alternatives of a bucket whose first word is this piece of a scope.
fn add_bucket(
    all: &[Alternative],
    bucket: &Bucket,
    piece: &[char],
    done: &mut Vec<usize>,
) -> Result<(), OutOfMemory>
    ensures { IfOk result (λ _. done.new.items ≡ done.old.items ++ bucket_places all.now piece.now bucket.now) }
{
    let places = bucket.places.as_slice();
    for place in places {
        if begins_with(all, *place, piece) {
            done.push(*place)?;
        }
    }
    Ok(())
}

/// Adds the places of those alternatives whose first word is the scope up to this end, if a word may end there.
fn add_piece(
    all: &[Alternative],
    buckets: &[Bucket],
    scope: &[char],
    end: usize,
    done: &mut Vec<usize>,
) -> Result<(), OutOfMemory>
    requires some { 0 < length buckets.now }
    requires within { end ≤ length scope.now }
    ensures { IfOk result (λ _. done.new.items ≡ done.old.items ++ piece_places all.now buckets.now scope.now end) }
{
    if !ends_a_part(scope, end) {
        return Ok(());
    }
    let piece = &scope[..end];
    let bucket = &buckets[slot(piece, buckets.len())];
    add_bucket(all, bucket, piece, done)
}

/// The places of the alternatives whose first word matches the scope, the strongest first.
fn places_of(
    alloc: Global,
    all: &[Alternative],
    buckets: &[Bucket],
    scope: &[char],
) -> Result<Vec<usize>, OutOfMemory>
    requires { 0 < length buckets.now }
    ensures { IfOk result (λ places. places.items ≡ scope_places all.now buckets.now scope.now (length scope.now + 1)) }
{
    let mut done = Vec::new(alloc);
    let mut end = scope.len() + 1;
    while end > 0 {
        end -= 1;
        add_piece(all, buckets, scope, end, &mut done)?;
    }
    Ok(done)
}

/// Whether the words behind the first match scopes above.
fn parents_match<S: Scopes>(words: &[Name], above: &S) -> bool
    ensures { result ≡ parents_match (S.names above.now) words.now }
{
    match words {
        [] => false,
        [_, parents @ ..] => climb(above, parents),
    }
}

/// The style with what an alternative sets whose first word matches, where the others do.
fn with_known_one<S: Scopes>(a: &Alternative, above: &S, style: Style) -> Style
    ensures { result ≡ with_known_one (S.names above.now) style a.now }
{
    if adds(style, a.style) && parents_match(a.words.as_slice(), above) {
        kept(style, a.style)
    } else {
        style
    }
}

fn with_known_place<S: Scopes>(all: &[Alternative], place: usize, above: &S, style: Style) -> Style
    ensures { result ≡ with_known_one (S.names above.now) style (alternative_at all.now place) }
{
    match all.get(place) {
        Some(a) => with_known_one(a, above, style),
        None => style,
    }
}

/// What alternatives set whose first word matches a scope, by what stands above it.
fn known_style<S: Scopes>(all: &[Alternative], places: &[usize], above: &S) -> Style
    ensures { result ≡ with_known all.now (S.names above.now) unset places.now }
{
    let mut style = Style {
        font: None,
        foreground: None,
        background: None,
    };
    for place in places {
        style = with_known_place(all, *place, above, style);
    }
    style
}

/// The alternatives of a theme in the order of its file, with the buckets in which they are looked up.
#[derive(Drop)]
pub struct Table {
    all: Vec<Alternative>,
    buckets: Vec<Bucket>,
}

impl Model for Table {
    ghost use Rattle.std.specs.Prelude.{List};
    ghost use Rattle.tm_theme.specs.Buckets.{IsTable};
    ghost use Rattle.tm_theme.specs.declared.style.Alternative.{Alternative};

    ghost Value = { List Alternative };

    ghost view = { λ t. t.all.items };

    ghost invariant = { λ t. IsTable t.all.items t.buckets.items };
}

impl Table {
    /// Puts alternatives into buckets.
    pub fn new(alloc: Global, all: Vec<Alternative>) -> Result<Table, OutOfMemory>
        ensures { IfOk result (λ table. table ≡ all.items) }
    {
        let buckets = buckets_of(alloc, all.as_slice())?;
        Ok(Table { all, buckets })
    }

    /// The token type and the look of a scope below others, where those above it are known. It takes no memory.
    pub fn styled<S: Scopes>(
        &self,
        above: &S,
        scope: &Name,
        token_type: TokenType,
        look: Look,
    ) -> (TokenType, Look)
        ensures token_type { result.0 ≡ unwrap_or (decided_type scope.now) token_type }
        ensures look { result.1 ≡ styled self.now (S.names above.now) scope.now look }
    {
        let said = said_of(
            self.all.as_slice(),
            self.buckets.as_slice(),
            above,
            scope.as_slice(),
        );
        (
            said.token_type.unwrap_or(token_type),
            with_style(look, said.style),
        )
    }

    /// The places of the alternatives whose first word matches a scope, the strongest first.
    pub fn places_of(&self, alloc: Global, scope: &Name) -> Result<Vec<usize>, OutOfMemory>
        ensures { IfOk result (λ places. AreFor self.now scope.now places.items) }
    {
        let places = places_of(
            alloc,
            self.all.as_slice(),
            self.buckets.as_slice(),
            scope.as_slice(),
        )?;
        Ok(places)
    }

    /// The look of a scope below others, where that above it is known, and the places of the alternatives for the scope.
    /// It takes no memory.
    pub fn styled_by<S: Scopes>(&self, places: &[usize], above: &S, look: Look) -> Look
        ensures { (scope : List ℕ) → AreFor self.now scope places.now → result ≡ styled self.now (S.names above.now) scope look }
    {
        with_style(look, known_style(self.all.as_slice(), places, above))
    }
}
