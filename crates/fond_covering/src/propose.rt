//! Proposals of covers.

use crate::sketch::{Looked, Sketch};
use fond_moves::moves::Moves;
use fond_policy::items::Items;
use fond_rules::rules::Rules;
use fond_task::task::Task;
use fond_text::fault::NoMemory;
use std::alloc::Global;

/// Adds the rules to a sketch.
fn add_rules(sketch: &mut Sketch, rules: &Rules) -> Result<(), NoMemory> {
    for number in 0..rules.len() {
        let rule = rules.get(number);
        sketch.add_rule(&rule.cond, rule.act)?;
    }
    Ok(())
}

/// A sketch for these rules, which has not begun.
fn sketch_of(alloc: Global, t: &Task, rules: &Rules) -> Result<Box<Sketch>, NoMemory> {
    let mut sketch = Sketch::new(alloc, Moves::shared(alloc, t)?)?;
    add_rules(&mut sketch, rules)?;
    Ok(sketch)
}

/// Follows a sketch until no edge is left, and gives its items.
fn follow(alloc: Global, t: &Task, sketch: &mut Sketch) -> Result<Option<Items>, NoMemory> {
    if !sketch.begin(t)? {
        return Ok(None);
    }
    for _ in 0..u64::MAX {
        let Some(edge) = sketch.next() else {
            return sketch.items(alloc);
        };
        if !matches!(sketch.look(t, edge)?, Looked::Done) {
            return Ok(None);
        }
    }
    Ok(None)
}

/// Proposes items that cover what the rules reach, the first of which has the initial state, or gives up: if a state without a
/// rule is met that is no goal, or if there is too much to do. Takes time and memory in the number of items times that of
/// rules.
pub(crate) fn propose(alloc: Global, t: &Task, rules: &Rules) -> Result<Option<Items>, NoMemory> {
    let mut sketch = sketch_of(alloc, t, rules)?;
    follow(alloc, t, &mut sketch)
}
