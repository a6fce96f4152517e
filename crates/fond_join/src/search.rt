//! A search for the kept ground actions of a schema by backtracking.

ghost use Rattle.fond_ast.specs.Ranges.{is_rising, objects_of};
ghost use Rattle.fond_join.specs.Kept.{is_no};
ghost use Rattle.fond_join.specs.Partial.{partial_value};
ghost use Rattle.fond_join.specs.Search.{arguments, IsOrder, kept_completions, Searched};
ghost use Rattle.std.specs.Bool.{OnTrue};
ghost use Rattle.std.specs.List.{list_all};
ghost use Rattle.std.specs.Prelude.{◌≡◌, ◌≤◌, [], ◌∷◌, length, not, IfOk, IsTrue, OnOk};

use crate::candidates::candidates;
use crate::facts::Facts;
use crate::matching::ArgsList;
use crate::value::{Scope, value};
use fond_ast::form::LCond;
use fond_ast::task::LSchema;
use fond_task::form::Kleene;
use fond_text::atom::Objects;
use fond_text::fault::NoMemory;
use fond_text::list::List;
use std::alloc::Global;

/// Whether a condition may be true, whatever the objects are that are not known.
pub(crate) fn is_possible(
    facts: &Facts,
    scope: &mut Scope,
    condition: &LCond,
) -> Result<bool, NoMemory>
    ensures value { IfOk result (λ possible. possible ≡ not (is_no (partial_value facts.now.task.now scope.old.env.items condition.now))) }
    ensures same { OnOk result (scope.new.env.items ≡ scope.old.env.items) }
{
    let value = value(facts, scope, condition)?;
    Ok(!matches!(value, Kleene::No))
}

/// The objects of parameters.
fn arguments(alloc: Global, env: &[Option<u32>]) -> Result<Objects, NoMemory>
    ensures { IfOk result (λ objects. objects ≡ arguments env.now) }
{
    let mut objects = List::new(alloc);
    for object in env {
        objects.push(object.unwrap_or(0))?;
    }
    Ok(objects)
}

/// Adds the objects of the parameters to those found, and returns whether there were not too many.
fn keep(alloc: Global, scope: &Scope, most: usize, found: &mut ArgsList) -> Result<bool, NoMemory>
    requires { length found.old ≤ most }
    ensures { IfOk result (Searched most found.old (arguments scope.now.env.items ∷ []) found.new) }
{
    if found.len() == most {
        return Ok(false);
    }
    found.push(arguments(alloc, scope.env.as_slice())?)?;
    Ok(true)
}

/// Finds the kept ground actions by giving the parameters of an order one object after the other, and returns whether
/// there were not too many. Leaves out all that follow as soon as the precondition is surely false, and tries only the
/// candidates of each parameter.
pub(crate) fn search(
    alloc: Global,
    facts: &Facts,
    schema: &LSchema,
    order: &[usize],
    scope: &mut Scope,
    most: usize,
    found: &mut ArgsList,
) -> Result<bool, NoMemory>
    requires long { length scope.old.env.items ≡ length schema.now.ranges }
    requires order { IsOrder scope.old.env.items order.now }
    requires rising { IsTrue (list_all is_rising (objects_of schema.now.ranges)) }
    requires room { length found.old ≤ most }
    ensures found { IfOk result (Searched most found.old (kept_completions facts.now.task.now schema.now scope.old.env.items order.now) found.new) }
    ensures same { IfOk result (λ complete. OnTrue complete (scope.new.env.items ≡ scope.old.env.items)) }
{
    if !is_possible(facts, scope, &schema.pre)? {
        return Ok(true);
    }
    match order {
        [] => keep(alloc, scope, most, found),
        [parameter, rest @ ..] => {
            let objects = candidates(alloc, facts, schema, scope, *parameter)?;
            for object in &objects {
                scope.env[*parameter] = Some(*object);
                if !search(alloc, facts, schema, rest, scope, most, found)? {
                    return Ok(false);
                }
                scope.env[*parameter] = None;
            }
            Ok(true)
        }
    }
}
