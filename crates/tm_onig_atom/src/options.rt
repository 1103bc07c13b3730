//! Options, which say how characters are meant.
ghost use Rattle.std.specs.Prelude.{◌≡◌};
ghost use Rattle.tm_onig_atom.specs.NoOptions.{no_options};

/// What holds at a place in a pattern.
#[derive(Clone, Copy, Debug, PartialEq, Eq)]
pub struct Options {
    /// `i`: characters match without regard to case.
    pub fold: bool,
    /// `m`: a dot takes a line break too.
    pub newline: bool,
    /// `x`: white space is skipped.
    pub extended: bool,
}

/// The options that hold at a pattern's beginning.
pub fn none() -> Options
    ensures { result ≡ no_options }
{
    Options {
        fold: false,
        newline: false,
        extended: false,
    }
}
