//! The line map: where changes take a line.
ghost use Rattle.std.specs.Prelude.{◌≡◌};
ghost use Rattle.tm_machine.specs.Changes.{line_after};
ghost use Rattle.tm_rebase.specs.Places.{HasSmallPlaces};

use tm_defs::changes::LineEffect;

/// Where the effects of changes take a line, in the order of the changes. A line before the range of a change stays, one
/// in it is replaced, which is `None`, and a later one moves by the difference of `new` and `old`. It takes no memory.
pub fn map(effects: &[LineEffect], line: u32) -> Option<u32>
    requires { HasSmallPlaces effects.now line }
    ensures { result ≡ line_after effects.now line }
{
    let mut at = line;
    for effect in effects {
        if at < effect.first {
            continue;
        }
        if at < effect.first + effect.old {
            return None;
        }
        at = at + effect.new - effect.old;
    }
    Some(at)
}
