//! References at the front of a text.
ghost use Rattle.std.specs.Prelude.{◌≡◌, length, option_map};
ghost use Rattle.tm_template.specs.References.{reference, digits_of, referring, manner_at, manner_text, braced_at, dollar_at, name_reference, end_reference, name_spelling, end_spelling};

/// In which case a reference's text is written. Only letters of ASCII have another case.
#[derive(Clone, Copy, Debug, PartialEq, Eq)]
pub enum Manner {
    AsCaptured,
    Downcase,
    Upcase,
}

const DOWNCASE: [char; 11] = [':', '/', 'd', 'o', 'w', 'n', 'c', 'a', 's', 'e', '}'];

const UPCASE: [char; 9] = [':', '/', 'u', 'p', 'c', 'a', 's', 'e', '}'];

/// The digits at the front, as many as there are.
fn digits(text: &[char]) -> &[char]
    ensures { result.now ≡ digits_of text.now }
{
    'digits: for i in 0..text.len() {
        if !text[i].is_ascii_digit() {
            return &text[..i];
        }
    }
    text
}

/// The reference with these digits. There is none without digits.
fn referring(manner: Manner, digits: &[char]) -> Option<(&[char], Manner)>
    ensures { option_map (λ x. reference x.0.now x.1) result ≡ referring manner digits.now }
{
    match digits {
        [] => None,
        _ => Some((digits, manner)),
    }
}

/// The case that is written at the front.
#[tactic(auto, unfolding(crate::specs::References::manner_at))]
fn manner_at(text: &[char]) -> Option<Manner>
    ensures { result ≡ manner_at text.now }
{
    if text.starts_with(&DOWNCASE) {
        Some(Manner::Downcase)
    } else if text.starts_with(&UPCASE) {
        Some(Manner::Upcase)
    } else {
        None
    }
}

/// The reference between braces, behind the first of them.
fn braced(text: &[char]) -> Option<(&[char], Manner)>
    ensures { option_map (λ x. reference x.0.now x.1) result ≡ braced_at text.now }
{
    let digits = digits(text);
    match manner_at(&text[digits.len()..]) {
        Some(manner) => referring(manner, digits),
        None => None,
    }
}

/// The reference behind a `$`.
#[tactic(auto, unfolding(crate::specs::References::dollar_at))]
fn dollar(text: &[char]) -> Option<(&[char], Manner)>
    ensures { option_map (λ x. reference x.0.now x.1) result ≡ dollar_at text.now }
{
    match text {
        ['{', rest @ ..] => braced(rest),
        _ => referring(Manner::AsCaptured, digits(text)),
    }
}

/// The reference at the front of the text of a template: the digits of its number, and its case.
#[tactic(auto, unfolding(crate::specs::References::name_reference))]
pub(crate) fn name_reference(text: &[char]) -> Option<(&[char], Manner)>
    ensures { option_map (λ x. reference x.0.now x.1) result ≡ name_reference text.now }
{
    match text {
        ['$', rest @ ..] => dollar(rest),
        _ => None,
    }
}

/// The reference at the front of the text of an end: the digits of its number.
#[tactic(auto, unfolding(crate::specs::References::end_reference))]
pub(crate) fn end_reference(text: &[char]) -> Option<(&[char], Manner)>
    ensures { option_map (λ x. reference x.0.now x.1) result ≡ end_reference text.now }
{
    match text {
        ['\\', rest @ ..] => referring(Manner::AsCaptured, digits(rest)),
        _ => None,
    }
}

/// How many characters a reference takes in a template.
pub(crate) fn name_width(digits: &[char], manner: Manner) -> usize
    ensures { result ≡ length (name_spelling (reference digits.now manner)) }
{
    match manner {
        Manner::AsCaptured => digits.len() + 1,
        Manner::Downcase => digits.len() + 2 + DOWNCASE.len(),
        Manner::Upcase => digits.len() + 2 + UPCASE.len(),
    }
}
