//! Laws of the definitions. Each function does nothing but say one.
ghost use Rattle.tm_theme.specs.Strongest.{IsByStrength};
ghost use Rattle.tm_theme.specs.Theme.{IsByLast};

/// The parts of a path are those of the path above its last scope, with that scope.
pub fn prove_parts_by_last_scope()
    ensures { IsByLast }
{}

/// The alternative that wins is weaker than none that matches and sets the attribute, and all such behind it are weaker.
pub fn prove_the_strongest_wins()
    ensures { IsByStrength }
{}
