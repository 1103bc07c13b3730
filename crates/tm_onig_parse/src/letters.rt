//! Letters that set options.
ghost use Rattle.std.specs.Prelude.{◌≡◌};
ghost use Rattle.tm_onig_parse.specs.Options.{letter};

use tm_onig_atom::options::Options;

/// What a letter of options makes of them, and whether the next one sets an option or clears it: a `-`,
/// which may stand once, goes over to clearing.
#[tactic(auto, unfolding(crate::specs::Options::letter))]
pub fn letter(on: bool, options: Options, c: char) -> Option<(bool, Options)>
    ensures { result ≡ letter on options c }
{
    match c {
        'i' => Some((
            on,
            Options {
                fold: on,
                ..options
            },
        )),
        'm' => Some((
            on,
            Options {
                newline: on,
                ..options
            },
        )),
        'x' => Some((
            on,
            Options {
                extended: on,
                ..options
            },
        )),
        '-' => { if on { Some((false, options)) } else { None } }
        _ => None,
    }
}
