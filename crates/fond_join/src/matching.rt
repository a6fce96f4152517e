//! The kept argument lists of a schema. Parameters are given objects in the order of their declarations, so that the lists
//! are found in order. Before that, the precondition is looked at without objects, and each pair of parameters alone: if
//! nothing can be left, there is no search.

ghost use Rattle.fond_ast.specs.declared.task.LSchema.{LSchema};
ghost use Rattle.fond_join.specs.Kept.{kept_args};
ghost use Rattle.std.specs.List.{range_with_len};
ghost use Rattle.std.specs.Prelude.{◌≡◌, ◌<◌, ◌≤◌, [], true, Some, None, length, replicate, slice_get, IfOk, MatchOption, OnOk};

use crate::barren::has_barren_pair;
use crate::facts::Facts;
use crate::fixed::fixed_value;
use crate::search::search;
use crate::value::Scope;
use fond_ast::task::LSchema;
use fond_task::form::Kleene;
use fond_text::atom::Objects;
use fond_text::fault::NoMemory;
use fond_text::list::List;
use std::alloc::Global;

/// Lists of arguments, in order.
pub type ArgsList = List<Objects>;

/// The numbers of some parameters, in the order of their declarations.
fn declared_order(alloc: Global, count: usize) -> Result<Vec<usize>, NoMemory>
    ensures { IfOk result (λ order. order.items ≡ range_with_len 0 count) }
{
    let mut order = Vec::new(alloc);
    for parameter in 0..count {
        order.push(parameter)?;
    }
    Ok(order)
}

/// Parameters without objects.
fn no_objects(alloc: Global, count: usize) -> Result<Scope, NoMemory>
    ensures { IfOk result (λ scope. scope.env.items ≡ replicate count None) }
{
    Ok(Scope {
        env: vec![in alloc; None; count]?,
        key: Vec::new(alloc),
    })
}

/// Whether it is clear without a search that no ground action is kept: the precondition is false whatever the objects are,
/// or two parameters leave none.
fn leaves_none(facts: &Facts, schema: &LSchema, scope: &mut Scope) -> Result<bool, NoMemory>
    requires { scope.old.env.items ≡ replicate (length schema.now.ranges) None }
    ensures none { IfOk result (λ none. none ≡ true → kept_args facts.now.task.now schema.now ≡ []) }
    ensures same { OnOk result (scope.new.env.items ≡ scope.old.env.items) }
{
    if let Kleene::No = fixed_value(&facts.bare, &schema.pre) {
        return Ok(true);
    }
    has_barren_pair(facts, schema, scope)
}

/// The argument lists of the kept ground actions of a schema, in order, or none if there are more than `most`. Takes the
/// time of one value of the precondition for each partial list that is reached and each object that is tried after it, and
/// memory for no more than `most` lists. If a static atom that the precondition demands has the next parameter and an
/// object that is known, only the objects in the matching initial atoms are tried. So a precondition `(road ?a ?b)` takes
/// about the number of locations and roads, whatever the number of pairs of locations.
pub fn matches_within(
    alloc: Global,
    facts: &Facts,
    schema: u32,
    most: usize,
) -> Result<Option<ArgsList>, NoMemory>
    requires { schema < length facts.now.task.now.schemas }
    ensures { (s : LSchema) → slice_get facts.now.task.now.schemas schema ≡ Some s → IfOk result (λ found. MatchOption found
        (most < length (kept_args facts.now.task.now s))
        (λ all. (all ≡ kept_args facts.now.task.now s) × (length all ≤ most))) }
{
    let schema = facts.task.schemas.get(schema as usize);
    let count = schema.ranges.len();
    let order = declared_order(alloc, count)?;
    let mut scope = no_objects(alloc, count)?;
    if leaves_none(facts, schema, &mut scope)? {
        return Ok(Some(List::new(alloc)));
    }
    let mut found = List::new(alloc);
    if search(alloc, facts, schema, &order, &mut scope, most, &mut found)? {
        Ok(Some(found))
    } else {
        Ok(None)
    }
}
