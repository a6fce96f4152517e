//! Pairs of parameters that leave no kept ground action. If the precondition is surely false whatever objects two
//! parameters are given, no search is needed.

ghost use Rattle.fond_join.specs.Barren.{IsBarren, IsBarrenPair};
ghost use Rattle.fond_join.specs.Kept.{kept_args};
ghost use Rattle.std.specs.Prelude.{◌≡◌, ◌<◌, [], true, None, length, replicate, IfOk, OnOk};

use crate::facts::Facts;
use crate::search::is_possible;
use crate::value::Scope;
use fond_ast::form::LCond;
use fond_ast::task::LSchema;
use fond_text::fault::NoMemory;

/// The most objects of a parameter that is looked at together with another one.
const MOST_PAIRED: usize = 1024;

/// Whether the precondition is surely false for each of these objects of a parameter.
fn is_barren(
    facts: &Facts,
    scope: &mut Scope,
    pre: &LCond,
    parameter: usize,
    objects: &[u32],
) -> Result<bool, NoMemory>
    requires { parameter < length scope.old.env.items }
    ensures barren { IfOk result (λ barren. barren ≡ true → IsBarren facts.now.task.now pre.now scope.old.env.items parameter objects.now) }
    ensures same { OnOk result (scope.new.env.items ≡ scope.old.env.items) }
{
    let before = scope.env[parameter];
    for object in objects {
        scope.env[parameter] = Some(*object);
        let possible = is_possible(facts, scope, pre)?;
        scope.env[parameter] = before;
        if possible {
            return Ok(false);
        }
    }
    Ok(true)
}

/// Whether the precondition is surely false for each pair of objects of two parameters.
fn is_barren_pair(
    facts: &Facts,
    schema: &LSchema,
    scope: &mut Scope,
    parameter: usize,
    other: usize,
) -> Result<bool, NoMemory>
    requires long { length scope.old.env.items ≡ length schema.now.ranges }
    requires first { parameter < length schema.now.ranges }
    requires second { other < length schema.now.ranges }
    ensures barren { IfOk result (λ barren. barren ≡ true → IsBarrenPair facts.now.task.now schema.now scope.old.env.items parameter other) }
    ensures same { OnOk result (scope.new.env.items ≡ scope.old.env.items) }
{
    let before = scope.env[parameter];
    let objects = schema.ranges.get(parameter).as_slice();
    let others = schema.ranges.get(other).as_slice();
    if objects.len() > MOST_PAIRED || others.len() > MOST_PAIRED {
        return Ok(false);
    }
    for object in objects {
        scope.env[parameter] = Some(*object);
        let barren = is_barren(facts, scope, &schema.pre, other, others)?;
        scope.env[parameter] = before;
        if !barren {
            return Ok(false);
        }
    }
    Ok(true)
}

/// Whether a parameter and one before it leave no kept ground action.
fn is_barren_with(
    facts: &Facts,
    schema: &LSchema,
    scope: &mut Scope,
    other: usize,
) -> Result<bool, NoMemory>
    requires open { scope.old.env.items ≡ replicate (length schema.now.ranges) None }
    requires within { other < length schema.now.ranges }
    ensures barren { IfOk result (λ barren. barren ≡ true → kept_args facts.now.task.now schema.now ≡ []) }
    ensures same { OnOk result (scope.new.env.items ≡ scope.old.env.items) }
{
    for parameter in 0..other {
        if is_barren_pair(facts, schema, scope, parameter, other)? {
            return Ok(true);
        }
    }
    Ok(false)
}

/// Whether two parameters leave no kept ground action. Takes time in the numbers of pairs of objects that are surely
/// false, since a pair of parameters is passed over at the first pair of objects that is not.
pub(crate) fn has_barren_pair(
    facts: &Facts,
    schema: &LSchema,
    scope: &mut Scope,
) -> Result<bool, NoMemory>
    requires { scope.old.env.items ≡ replicate (length schema.now.ranges) None }
    ensures barren { IfOk result (λ barren. barren ≡ true → kept_args facts.now.task.now schema.now ≡ []) }
    ensures same { OnOk result (scope.new.env.items ≡ scope.old.env.items) }
{
    for other in 0..schema.ranges.len() {
        if is_barren_with(facts, schema, scope, other)? {
            return Ok(true);
        }
    }
    Ok(false)
}
