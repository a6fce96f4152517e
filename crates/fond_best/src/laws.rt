//! The laws of certificates and of verdicts, each the contract of a function with an empty body.

ghost use Rattle.fond_best.specs.Laws.{CertificatesAreBest, RightAreRated};

/// The rules of a correct certificate are a solution of its rank, and no other solution has a smaller one. A state gets the least rank
/// of the items in which it lies, which is a ranking. A state of far list `j` has a rank of more than `j` under each solution: its
/// action leads into the list before, by induction, since a solution reaches no layer.
pub fn certificates_are_best()
    ensures { CertificatesAreBest }
{}

/// Each verdict on a correct certificate is its rank. So `rate` accepts a certificate if and only if it is correct.
pub fn right_are_rated()
    ensures { RightAreRated }
{}
