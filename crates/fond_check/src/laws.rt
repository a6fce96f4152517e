//! The law of verdicts, the contract of a function with an empty body.

ghost use Rattle.fond_check.specs.Laws.{RightAreAccepted};

/// Each verdict on a correct certificate is that it is accepted. So `check` accepts a certificate if and only if it is
/// correct.
pub fn right_are_accepted()
    ensures { RightAreAccepted }
{}
