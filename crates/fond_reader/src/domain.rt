//! Reading a tree as a domain.

ghost use Rattle.fond_tree.specs.FormFaults.{Fits, StandsInDomain};
ghost use Rattle.fond_tree.specs.declared.role.Role.TheVariants.{DomainFile as DomainRole, DomainSection as DomainSectionRole};
ghost use Rattle.fond_reader.specs.Files.{IsDomainOf, AreSchemasOf, contents, headed};
ghost use Rattle.fond_reader.specs.Sorts.{FitsTyped};
ghost use Rattle.fond_reader.specs.Typed.{are_names};
ghost use Rattle.fond_reader.specs.declared.typed.Sort.TheVariants.{Names};
ghost use Rattle.fond_text.specs.Faults.{IsClean, IsLeastIn, Refuses};
ghost use Rattle.fond_text.specs.declared.code.TheConstants.{LONGEST_TEXT};
ghost use Rattle.fond_text.specs.declared.place.FileKind.TheVariants.{Domain as DomainKind};
ghost use Rattle.fond_tree.specs.Spelling.{spelling};
ghost use Rattle.std.specs.List.{AllByRecursion};
ghost use Rattle.std.specs.Prelude.{◌≡◌, ◌≤◌, true, codes, length, IfOk, IfErr, OnOk};

use crate::action::read_action;
use crate::initial::read_predicates;
use crate::section::{contents_of, sections_of};
use crate::typed::{Sort, read_typed};
use fond_ast::files::{Domain, Schemas};
use fond_ast::names::TypedNames;
use fond_text::fault::{Fault, FrontError, NoMemory};
use fond_text::place::FileKind;
use fond_tree::fault::first_fault;
use fond_tree::leaves::begins;
use fond_tree::role::Role;
use fond_tree::tree::Tree;
use std::alloc::Global;

/// The schemas of the sections that are actions, in order.
fn read_schemas(alloc: Global, sections: &[Tree]) -> Result<Schemas, NoMemory>
    requires { AllByRecursion (Fits DomainSectionRole) sections.now }
    ensures { IfOk result (AreSchemasOf (headed (codes ":action") sections.now)) }
{
    let mut schemas = Schemas::new(alloc);
    for section in sections {
        if begins(section, b":action") {
            schemas.push(read_action(alloc, section)?)?;
        }
    }
    Ok(schemas)
}

/// The types and the constants of sections.
fn read_names(alloc: Global, sections: &[Tree]) -> Result<(TypedNames, TypedNames), NoMemory>
    requires types_once { length (headed (codes ":types") sections.now) ≤ 1 }
    requires constants_once { length (headed (codes ":constants") sections.now) ≤ 1 }
    requires types { FitsTyped Names (contents (codes ":types") sections.now) }
    requires constants { FitsTyped Names (contents (codes ":constants") sections.now) }
    ensures types { IfOk result (λ names. are_names names.0 (contents (codes ":types") sections.now) ≡ true) }
    ensures constants { IfOk result (λ names. are_names names.1 (contents (codes ":constants") sections.now) ≡ true) }
{
    let kinds = read_typed(alloc, Sort::Names, contents_of(sections, b":types"))?;
    let constants = read_typed(alloc, Sort::Names, contents_of(sections, b":constants"))?;
    Ok((kinds, constants))
}

/// The domain that a tree without a fault is read as.
fn domain_of(alloc: Global, tree: &Tree) -> Result<Domain, NoMemory>
    requires fits { Fits DomainRole tree.now }
    requires short { length (spelling tree.now) ≤ LONGEST_TEXT }
    ensures { IfOk result (IsDomainOf tree.now) }
{
    let sections = sections_of(tree);
    let (kinds, constants) = read_names(alloc, sections)?;
    let predicates = read_predicates(alloc, contents_of(sections, b":predicates"))?;
    let schemas = read_schemas(alloc, sections)?;
    Ok(Domain {
        place: tree.place(),
        kinds,
        constants,
        predicates,
        schemas,
    })
}

/// The domain that a tree is read as. A tree with a fault is refused with the first one, F7 to F12 (docs/FAULTS.md).
/// Takes time and memory in the size of the tree, but for the types of an `either`, of which each variable that has
/// them gets a copy.
pub fn read_domain(alloc: Global, t: &Tree) -> Result<Domain, FrontError>
    requires { length (spelling t.now) ≤ LONGEST_TEXT }
    ensures read { IfOk result (IsDomainOf t.now) }
    ensures clean { OnOk result (IsClean (StandsInDomain t.now)) }
    ensures refused { IfErr result (Refuses (IsLeastIn DomainKind (StandsInDomain t.now))) }
{
    if let Some(found) = first_fault(Role::DomainFile, t) {
        return Err(FrontError::Refused(Fault {
            file: FileKind::Domain,
            place: found.place,
            code: found.code,
        }));
    }
    Ok(domain_of(alloc, t)?)
}
