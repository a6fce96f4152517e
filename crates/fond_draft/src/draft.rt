//! Policies in the making.

ghost use Rattle.fond_draft.specs.Drafts.{IsDraft};
ghost use Rattle.fond_explicit.specs.Answers.{AreStuck};
ghost use Rattle.fond_task.specs.Certificates.{LiesInLayers};
ghost use Rattle.fond_task.specs.declared.rule.Pair.{Pair};
ghost use Rattle.std.specs.Prelude.{◌≡◌, ◌<◌, ◌-◌, ◌^◌, ◌∷◌, ◌++◌, [], List, Bool, length, IfOk, OnOk};

use crate::append::append_layers;
use fond_layers::layers::Layers;
use fond_rules::pairs::Pairs;
use fond_rules::rules::Rules;
use fond_task::rule::{Pair, Rule};
use fond_task::task::Task;
use fond_text::fault::NoMemory;
use std::alloc::Global;

/// A policy in the making: layers, pairs that lead into them, and rules, each of which contradicts the pairs of its action.
/// Fresh pairs were found while these rules were made, which need not contradict them.
#[derive(Drop)]
pub struct Draft {
    pub layers: Layers,
    pub pairs: Pairs,
    pub fresh: Vec<Pair>,
    pub rules: Rules,
}

/// A copy of a pair.
fn copy_pair(alloc: Global, pair: &Pair) -> Result<Pair, NoMemory>
    ensures { IfOk result (λ copy. copy ≡ pair.now) }
{
    Ok(Pair {
        cond: pair.cond.copy(alloc)?,
        act: pair.act,
        outcome: pair.outcome,
        layer: pair.layer,
        cube: pair.cube,
    })
}

impl Draft {
    /// A draft without layers, pairs and rules.
    pub fn new(alloc: Global, t: &Task) -> Draft
        ensures { IsDraft t.now result }
    {
        Draft {
            layers: Layers::new(alloc),
            pairs: Pairs::new(alloc),
            fresh: Vec::new(alloc),
            rules: Rules::new(alloc),
        }
    }

    /// Adds a rule at the end.
    pub fn push_rule(&mut self, rule: Rule) -> Result<(), NoMemory>
        requires { length self.old.rules < 2 ^ 32 - 1 }
        ensures { OnOk result (self.new ≡ record self.old { rules = self.old.rules ++ rule ∷ [] }) }
    {
        self.rules.push(rule)?;
        Ok(())
    }

    /// Appends layers that are stuck from some state. If there are none yet, they are taken as they are.
    pub fn learn(&mut self, alloc: Global, t: &Task, layers: Layers) -> Result<(), NoMemory>
        requires draft { IsDraft t.now self.old }
        requires stuck { (from : List Bool) × (length from ≡ length t.now.atoms) × AreStuck t.now from layers }
        ensures draft { OnOk result (IsDraft t.now self.new) }
        ensures has { OnOk result ((state : List Bool) → LiesInLayers state layers → LiesInLayers state self.new.layers) }
        ensures pairs { OnOk result (self.new.pairs ≡ self.old.pairs) }
    {
        if self.layers.len() == 0 {
            self.layers = layers;
            return Ok(());
        }
        append_layers(alloc, t, &mut self.layers, &layers)?;
        Ok(())
    }

    /// Moves the fresh pairs to the pairs, and drops all rules.
    pub fn heed_fresh(&mut self, alloc: Global, t: &Task) -> Result<(), NoMemory>
        requires { IsDraft t.now self.old }
        ensures draft { OnOk result (IsDraft t.now self.new) }
        ensures none { OnOk result (self.new.fresh.items ≡ []) }
        ensures moved { OnOk result (self.new.pairs ≡ self.old.pairs ++ self.old.fresh.items) }
    {
        self.rules = Rules::new(alloc);
        for at in 0..self.fresh.len() {
            let pair = copy_pair(alloc, &self.fresh[at])?;
            self.pairs.push(pair)?;
        }
        self.fresh.clear();
        Ok(())
    }
}
