//! First declarations by name, and the table of all declarations.

ghost use Rattle.fond_names.specs.Files.{declarations_of};
ghost use Rattle.fond_names.specs.Indexes.{IsIndex};
ghost use Rattle.fond_names.specs.Names.{predicate_of, schema_of, first_of, all_objects};
ghost use Rattle.std.specs.Option.{option_copied};
ghost use Rattle.std.specs.Prelude.{◌≡◌, ◌++◌, IfOk};

use crate::files::Files;
use crate::index::{index_objects, index_predicates, index_schemas, joined_get};
use fond_ast::files::{Declared, Domain, Problem, Schema, Side};
use fond_ast::names::TypedName;
use fond_kinds::table::TypeTable;
use fond_store::index::TextIndex;
use fond_text::fault::NoMemory;
use fond_text::name::Name;
use std::alloc::Global;

/// An index of the predicates of a domain, and one of its constants and the objects of a problem.
fn indexed_names(
    alloc: Global,
    domain: &Domain,
    problem: &Problem,
) -> Result<(TextIndex, TextIndex), NoMemory>
    ensures predicates { IfOk result (λ made. IsIndex (λ predicate. predicate.name) made.0 domain.now.predicates) }
    ensures objects { IfOk result
        (λ made. IsIndex (λ one. one.name) made.1 (domain.now.constants ++ problem.now.objects)) }
{
    let predicates = index_predicates(alloc, &domain.predicates)?;
    let objects = index_objects(alloc, &domain.constants, &problem.objects)?;
    Ok((predicates, objects))
}

/// The index of the schemas of a domain, beside those of the predicates and the objects.
fn all_indexes(
    alloc: Global,
    domain: &Domain,
    problem: &Problem,
) -> Result<(TextIndex, (TextIndex, TextIndex)), NoMemory>
    ensures schemas { IfOk result (λ made. IsIndex (λ schema. schema.name) made.0 domain.now.schemas) }
    ensures predicates { IfOk result (λ made. IsIndex (λ predicate. predicate.name) made.1.0 domain.now.predicates) }
    ensures objects { IfOk result
        (λ made. IsIndex (λ one. one.name) made.1.1 (domain.now.constants ++ problem.now.objects)) }
{
    let schemas = index_schemas(alloc, &domain.schemas)?;
    let names = indexed_names(alloc, domain, problem)?;
    Ok((schemas, names))
}

/// The declarations of three files with these indexes of their types and names.
fn with_indexes<'a>(
    domain: &'a Domain,
    problem: &'a Problem,
    side: &'a Side,
    types: TypeTable<'a>,
    indexes: (TextIndex, (TextIndex, TextIndex)),
) -> Files<'a>
    requires typed { types.types.now ≡ domain.now.kinds }
    requires schemas { IsIndex (λ schema. schema.name) indexes.0 domain.now.schemas }
    requires predicates { IsIndex (λ predicate. predicate.name) indexes.1.0 domain.now.predicates }
    requires objects { IsIndex (λ one. one.name) indexes.1.1 (domain.now.constants ++ problem.now.objects) }
    ensures { declarations_of result ≡ record { domain = domain.now; problem = problem.now; side = side.now } }
{
    let (schemas, (predicates, objects)) = indexes;
    Files {
        domain,
        problem,
        side,
        types,
        predicates,
        objects,
        schemas,
    }
}

/// The declarations of three files with this table of types.
fn with_types<'a>(
    alloc: Global,
    domain: &'a Domain,
    problem: &'a Problem,
    side: &'a Side,
    types: TypeTable<'a>,
) -> Result<Files<'a>, NoMemory>
    requires { types.types.now ≡ domain.now.kinds }
    ensures { IfOk result (λ files. declarations_of files ≡ record { domain = domain.now; problem = problem.now; side = side.now }) }
{
    let indexes = all_indexes(alloc, domain, problem)?;
    Ok(with_indexes(domain, problem, side, types, indexes))
}

/// The declarations of three files, indexed. Takes time and memory linear in their names.
pub fn indexed<'a>(
    alloc: Global,
    domain: &'a Domain,
    problem: &'a Problem,
    side: &'a Side,
) -> Result<Files<'a>, NoMemory>
    ensures { IfOk result (λ files. declarations_of files ≡ record { domain = domain.now; problem = problem.now; side = side.now }) }
{
    let types = TypeTable::of(alloc, &domain.kinds)?;
    with_types(alloc, domain, problem, side, types)
}

/// The first declaration of a predicate.
pub fn find_predicate<'f>(files: &'f Files, name: &Name) -> Option<&'f Declared>
    ensures { option_copied result ≡ predicate_of files.now.domain.now name.now }
{
    let at = files.predicates.find(name.bytes())? as usize;
    Some(files.domain.predicates.get(at))
}

/// The first schema of a name.
pub fn find_schema<'f>(files: &'f Files, name: &Name) -> Option<&'f Schema>
    ensures { option_copied result ≡ schema_of files.now.domain.now name.now }
{
    let at = files.schemas.find(name.bytes())? as usize;
    Some(files.domain.schemas.get(at))
}

/// The first declaration of an object.
pub fn find_object<'f>(files: &'f Files, name: &Name) -> Option<&'f TypedName>
    ensures { option_copied result ≡ first_of (all_objects (declarations_of files.now)) name.now }
{
    let at = files.objects.find(name.bytes())? as usize;
    Some(joined_get(&files.domain.constants, &files.problem.objects, at))
}
