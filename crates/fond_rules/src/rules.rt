//! Ordered lists of rules.

ghost use Rattle.fond_rules.specs.Belongs.{BelongTo};
ghost use Rattle.std.specs.Prelude.{◌≡◌, ◌<◌, true, All};

use crate::ordered::Ordered;
use fond_task::rule::Rule;
use fond_task::task::Task;

/// Rules in order: in a state, the first one whose condition holds there is used.
pub type Rules = Ordered<Rule>;

impl Ordered<Rule> {
    /// Whether the actions of all rules are among this many. Takes time in the number of rules.
    fn are_acts_below(&self, acts: usize) -> bool
        ensures yes { result ≡ true → All (λ rule. rule.act < acts) self.now }
        ensures no { All (λ rule. rule.act < acts) self.now → result ≡ true }
    {
        for rule in self.items.as_slice() {
            if rule.act as usize >= acts {
                return false;
            }
        }
        true
    }

    /// Whether the rules belong to the task: their conditions are over its atoms, and it has their actions. Takes time
    /// in the number of rules.
    pub fn belong_to(&self, task: &Task) -> bool
        ensures yes { result ≡ true → BelongTo task.now self.now }
        ensures no { BelongTo task.now self.now → result ≡ true }
    {
        self.are_over(task.atoms.len()) && self.are_acts_below(task.acts.len())
    }
}
