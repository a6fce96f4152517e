//! The laws of items and of policies with covers, each the contract of a function with an empty body.

ghost use Rattle.fond_policy.specs.Covers.{ItemsAreClosed};
ghost use Rattle.fond_policy.specs.Laws.{CoversAreSolutions};

/// Sure items are closed: if the initial state lies in one, each state that the rules reach lies in one.
pub fn items_are_closed()
    ensures { ItemsAreClosed }
{}

/// The rules of a correct policy certificate with a cover are a solution: each state that they reach lies in an item, so it is
/// a goal, or a rule holds in it; and ranks exclude traps.
pub fn covers_are_solutions()
    ensures { CoversAreSolutions }
{}
