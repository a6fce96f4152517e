//! The texts that a task is read from.

ghost use Rattle.std.specs.Prelude.{◌≡◌};

use std::marker::Model;

/// The texts of a domain, a problem and a side list. They are borrowed, so no file is copied.
#[derive(Drop)]
pub struct TaskTexts<'a> {
    domain: &'a [u8],
    problem: &'a [u8],
    side: &'a [u8],
}

impl<'a> Model for TaskTexts<'a> {
    ghost use Rattle.fond_front.specs.Texts.{Texts};

    ghost Value = { Texts };

    ghost view = { λ t. record { domain = t.domain.now; problem = t.problem.now; side = t.side.now } };
}

impl<'a> TaskTexts<'a> {
    /// The texts of these files.
    pub fn new(domain: &'a [u8], problem: &'a [u8], side: &'a [u8]) -> TaskTexts<'a>
        ensures { result ≡ record { domain = domain.now; problem = problem.now; side = side.now } }
    {
        TaskTexts {
            domain,
            problem,
            side,
        }
    }

    /// The text of the domain.
    pub(crate) fn domain(&self) -> &[u8]
        ensures { result.now ≡ self.now.domain }
    {
        self.domain
    }

    /// The text of the problem.
    pub(crate) fn problem(&self) -> &[u8]
        ensures { result.now ≡ self.now.problem }
    {
        self.problem
    }

    /// The text of the side list.
    pub(crate) fn side(&self) -> &[u8]
        ensures { result.now ≡ self.now.side }
    {
        self.side
    }
}
