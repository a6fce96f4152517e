//! How words pick the outcomes of a trace.

ghost use Rattle.std.specs.Prelude.{◌≡◌, ◌<◌};

/// Picks the outcome of each step by a word.
pub trait Picks {
    ghost use Rattle.fond_state.specs.Traces.{Pick};

    ghost pick_of: { Self → Pick };

    /// The number that the word picks among `count` outcomes. It may be `count` or more.
    fn pick(&self, count: u32, word: u32) -> u32
        requires { 0 < count }
        ensures { result ≡ pick_of self.now count word };
}

/// Each word is the number of the outcome.
#[derive(Clone, Copy)]
pub struct AsRecorded;

impl Picks for AsRecorded {
    ghost use Rattle.fond_state.specs.Traces.{as_recorded};

    ghost pick_of = { λ picks. as_recorded };

    fn pick(&self, _count: u32, word: u32) -> u32 {
        word
    }
}

/// Each word is drawn, and picks the outcome whose number is its remainder by their count.
#[derive(Clone, Copy)]
pub struct ByRemainder;

impl Picks for ByRemainder {
    ghost use Rattle.fond_state.specs.Traces.{by_remainder};

    ghost pick_of = { λ picks. by_remainder };

    fn pick(&self, count: u32, word: u32) -> u32 {
        word % count
    }
}
