//! Layers with an index of their cubes.

ghost use Rattle.fond_task.specs.Layers.{LiesInLayer};
ghost use Rattle.fond_layers.specs.Deads.{IsFirstCube};
ghost use Rattle.fond_layers.specs.Over.{IsOver};
ghost use Rattle.fond_state.specs.Cubes.{LiesIn};
ghost use Rattle.std.specs.Prelude.{◌≡◌, ◌<◌, ◌^◌, length, Contains, Decides, MatchOption};
ghost use Rattle.fond_task.specs.Layers.{CubeView};

use crate::layers::Layer;
use fond_match::matcher::Matcher;
use fond_state::cube::Cube;
use fond_state::state::State;
use std::alloc::Global;
use std::marker::Model;

/// A layer of fewer than 2^32 cubes. Contracts see it as the list of its cubes.
#[derive(Drop)]
pub(crate) struct Indexed {
    cubes: Layer,
    matcher: Matcher,
}

impl Model for Indexed {
    ghost use Rattle.fond_task.specs.Layers.{CubeView};
    ghost use Rattle.fond_match.specs.Matchers.{IsMatcherOf};
    ghost use Rattle.std.specs.Prelude.{List, ◌<◌, ◌^◌, length, map};

    ghost Value = { List CubeView };

    ghost view = { λ l. l.cubes };

    ghost invariant = { λ l. (length l.cubes < 2 ^ 32) × IsMatcherOf (map (λ cube. cube) l.cubes) l.matcher };
}

impl Indexed {
    /// The layer with an index, or without one if there is no memory for it: searches are then slow. Takes time in the
    /// number of cubes times that of the atoms.
    pub(crate) fn new(alloc: Global, cubes: Layer) -> Indexed
        requires { length cubes < 2 ^ 32 }
        ensures { result ≡ cubes }
    {
        let matcher = match Matcher::build(alloc, cubes.as_slice()) {
            Ok(matcher) => matcher,
            Err(_) => Matcher::new(alloc),
        };
        Indexed { cubes, matcher }
    }

    /// The layer.
    pub(crate) fn cubes(&self) -> &Layer
        ensures layer { result.now ≡ self.now }
        ensures few { length self.now < 2 ^ 32 }
    {
        &self.cubes
    }

    /// The cubes, in order.
    pub(crate) fn as_slice(&self) -> &[Cube]
        ensures { result.now ≡ self.now }
    {
        self.cubes.as_slice()
    }

    /// Whether the cube lies in one of the layer's cubes.
    pub(crate) fn has_around(&self, cube: &Cube) -> bool
        requires { IsOver (length cube.now) self.now }
        ensures { Decides result (LiesInLayer cube.now self.now) }
    {
        self.matcher.first(self.cubes.as_slice(), cube).is_some()
    }

    /// The number of the first cube in which the state lies, if there is one.
    pub(crate) fn first_with(&self, s: &State) -> Option<u32>
        requires { IsOver (length s.now) self.now }
        ensures { MatchOption result ((cube : CubeView) → Contains self.now cube → ¬ LiesIn s.now cube) (IsFirstCube s.now self.now) }
    {
        self.matcher.first(self.cubes.as_slice(), s)
    }
}
