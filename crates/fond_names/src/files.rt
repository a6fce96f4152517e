//! The declarations of the three files, with an index of each sort of names.

ghost use Rattle.fond_names.specs.Indexes.{IsIndex};
ghost use Rattle.std.specs.Prelude.{◌≡◌, ◌++◌};
ghost use Rattle.std.proofs.Props.{props};

use fond_ast::files::{Domain, Problem, Side};
use fond_kinds::table::TypeTable;
use fond_store::index::TextIndex;

/// The declarations of the three files. The indexes have the positions of first declarations, that of the objects among
/// the constants and the objects of the problem, one after the other.
#[derive(Drop)]
pub struct Files<'a> {
    pub domain: &'a Domain,
    pub problem: &'a Problem,
    pub side: &'a Side,
    pub types: TypeTable<'a>,
    pub predicates: TextIndex,
    pub objects: TextIndex,
    pub schemas: TextIndex,
    ghost types_declared: { types.types.now ≡ domain.now.kinds },
    ghost predicates_indexed: { IsIndex (λ predicate. predicate.name) predicates domain.now.predicates } by { Prim.hlevel props },
    ghost objects_indexed: { IsIndex (λ object. object.name) objects (domain.now.constants ++ problem.now.objects) } by { Prim.hlevel props },
    ghost schemas_indexed: { IsIndex (λ schema. schema.name) schemas domain.now.schemas } by { Prim.hlevel props },
}
