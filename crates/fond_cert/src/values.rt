//! The values of a line, as they are read one after the other.

ghost use Rattle.fond_cert.specs.Filled.{no_values};
ghost use Rattle.fond_task.specs.declared.rule.Target.{Target};
ghost use Rattle.std.specs.Prelude.{◌≡◌, ◌<◌, ◌^◌, ℕ, Some, slice_get};

use fond_policy::item::ItemNumbers;
use fond_state::cube::Cube;
use fond_task::rule::{Target, TargetList};
use fond_text::list::List;
use std::alloc::Global;
use std::mem;

/// Numbers of a line that stand alone, from left to right.
pub(crate) type Numbers = List<u64>;

/// What the values of a line stand for: its action, its numbers that stand alone, its targets, its numbers of items, and its cube.
#[derive(Drop)]
pub(crate) struct LineValues {
    pub act: u32,
    pub numbers: Numbers,
    pub targets: TargetList,
    pub items: ItemNumbers,
    pub cube: Option<Cube>,
}

impl LineValues {
    /// No values. It takes no memory.
    pub fn new(alloc: Global) -> LineValues
        ensures { result ≡ no_values }
    {
        LineValues {
            act: 0,
            numbers: List::new(alloc),
            targets: List::new(alloc),
            items: List::new(alloc),
            cube: None,
        }
    }

    /// The number at this position, or 0 if there is none.
    pub fn number(&self, at: usize) -> u64
        ensures { (number : ℕ) → slice_get self.now.numbers at ≡ Some number → result ≡ number }
    {
        match self.numbers.as_slice().get(at) {
            Some(number) => *number,
            None => 0,
        }
    }

    /// The first target, or `goal` if there is none.
    pub fn target(&self) -> Target
        ensures { (target : Target) → slice_get self.now.targets 0 ≡ Some target → result ≡ target }
    {
        match self.targets.as_slice().first() {
            Some(target) => *target,
            None => Target::Goal,
        }
    }

    /// Takes all targets.
    pub fn take_targets(&mut self, alloc: Global) -> TargetList
        ensures { result ≡ self.old.targets }
    {
        mem::replace(&mut self.targets, List::new(alloc))
    }

    /// Takes all numbers of items.
    pub fn take_items(&mut self, alloc: Global) -> ItemNumbers
        ensures { result ≡ self.old.items }
    {
        mem::replace(&mut self.items, List::new(alloc))
    }

    /// The number at this position, which is below 2^32, or 0 if there is none.
    pub fn short(&self, at: usize) -> u32
        ensures { (number : ℕ) → slice_get self.now.numbers at ≡ Some number → number < 2 ^ 32 → result ≡ number }
    {
        u32::try_from(self.number(at)).unwrap_or(0)
    }
}
