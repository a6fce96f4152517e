//! Short conditions of rules.

ghost use Rattle.fond_task.specs.Rules.{IsLeanRule, IsSureRule};
ghost use Rattle.fond_rules.specs.Belongs.{ArePairsOver};
ghost use Rattle.fond_rules.specs.Select.{AreOver};
ghost use Rattle.fond_state.specs.Cubes.{LiesIn, full_cube};
ghost use Rattle.std.specs.Prelude.{◌≡◌, ◌<◌, length, IfOk};

use crate::start::Origin;
use fond_rules::lean::shorten_from;
use fond_rules::pairs::Pairs;
use fond_rules::rule_test::RuleTest;
use fond_rules::rules::Rules;
use fond_state::cube::Cube;
use fond_state::state::State;
use fond_task::rule::Targets;
use fond_task::task::Task;
use fond_text::fault::NoMemory;
use std::alloc::Global;

/// A condition that holds in the state and with which the rule after all rules is lean. Starts with what regression of
/// the targets through the outcomes gives (`Origin::regressed`), or with the full cube of the state if the rule is not
/// sure with that, and drops each literal that is not needed. Takes the time of `sure_rule` once for each literal of the
/// start and once more, and before that the time of the regression. Takes the memory of five cubes.
pub fn lean_condition(
    alloc: Global,
    t: &Task,
    pairs: &Pairs,
    rules: &Rules,
    s: &State,
    act: u32,
    targets: &Targets,
) -> Result<Cube, NoMemory>
    requires pairs_over { ArePairsOver (length t.now.atoms) pairs.now }
    requires rules_over { AreOver (length t.now.atoms) rules.now }
    requires there { act < length t.now.acts }
    requires long { length s.now ≡ length t.now.atoms }
    requires sure { IsSureRule t.now pairs.now rules.now (length rules.now) (record { cond = full_cube s.now; act = act; targets = targets.now }) }
    ensures over { IfOk result (λ cond. length cond ≡ length t.now.atoms) }
    ensures holds { IfOk result (λ cond. LiesIn s.now cond) }
    ensures lean { IfOk result (λ cond. IsLeanRule t.now pairs.now rules.now (length rules.now) (record { cond = cond; act = act; targets = targets.now })) }
{
    let full = Cube::full(alloc, s)?;
    let origin = Origin {
        task: t,
        rules,
        source: &full,
    };
    let mut cond = origin.regressed(alloc, pairs, act, targets)?;
    let mut image = Cube::new(alloc, s.len() as u32)?;
    let test = RuleTest {
        task: t,
        pairs,
        rules,
        number: rules.len(),
        act,
        targets,
    };
    shorten_from(&test, &full, &mut cond, &mut image);
    Ok(cond)
}
