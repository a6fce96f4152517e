//! Reading a tree as a problem.

ghost use Rattle.fond_tree.specs.FormFaults.{Fits, StandsInProblem};
ghost use Rattle.fond_tree.specs.declared.role.Role.TheVariants.{Condition as ConditionRole, ProblemFile as ProblemRole};
ghost use Rattle.fond_reader.specs.Bodies.{is_condition};
ghost use Rattle.fond_reader.specs.Files.{IsProblemOf};
ghost use Rattle.fond_text.specs.Faults.{IsClean, IsLeastIn, Refuses};
ghost use Rattle.fond_text.specs.Lists.{each_passes};
ghost use Rattle.fond_text.specs.declared.code.TheConstants.{LONGEST_TEXT};
ghost use Rattle.fond_text.specs.declared.place.FileKind.TheVariants.{Problem as ProblemKind};
ghost use Rattle.fond_tree.specs.Spelling.{spelling};
ghost use Rattle.std.specs.List.{AllZip};
ghost use Rattle.std.specs.Prelude.{◌≡◌, ◌≤◌, ◌∷◌, [], true, length, IfOk, IfErr, OnOk};

use crate::condition::read_condition;
use crate::initial::read_initials;
use crate::section::{contents_of, sections_of};
use crate::typed::{Sort, read_typed};
use fond_ast::files::Problem;
use fond_ast::syntax::Cond;
use fond_text::fault::{Fault, FrontError, NoMemory};
use fond_text::place::FileKind;
use fond_tree::fault::first_fault;
use fond_tree::role::Role;
use fond_tree::tree::Tree;
use std::alloc::Global;

/// The condition that the only one of these trees is read as.
fn read_goal(alloc: Global, trees: &[Tree]) -> Result<Cond, NoMemory>
    requires fit { AllZip Fits (ConditionRole ∷ []) trees.now }
    ensures { IfOk result (λ goal. each_passes (is_condition goal ∷ []) trees.now ≡ true) }
{
    match trees {
        [tree] => read_condition(alloc, tree),
        _ => unreachable!(),
    }
}

/// The problem that a tree without a fault is read as.
fn problem_of(alloc: Global, tree: &Tree) -> Result<Problem, NoMemory>
    requires fits { Fits ProblemRole tree.now }
    requires short { length (spelling tree.now) ≤ LONGEST_TEXT }
    ensures { IfOk result (IsProblemOf tree.now) }
{
    let sections = sections_of(tree);
    let objects = read_typed(alloc, Sort::Names, contents_of(sections, b":objects"))?;
    let init = read_initials(alloc, contents_of(sections, b":init"))?;
    let goal = read_goal(alloc, contents_of(sections, b":goal"))?;
    Ok(Problem {
        place: tree.place(),
        objects,
        init,
        goal,
    })
}

/// The problem that a tree is read as. A tree with a fault is refused with the first one, F7 to F12 (docs/FAULTS.md).
/// Takes time and memory in the size of the tree, but for the types of an `either`, of which each variable that has
/// them gets a copy.
pub fn read_problem(alloc: Global, t: &Tree) -> Result<Problem, FrontError>
    requires { length (spelling t.now) ≤ LONGEST_TEXT }
    ensures read { IfOk result (IsProblemOf t.now) }
    ensures clean { OnOk result (IsClean (StandsInProblem t.now)) }
    ensures refused { IfErr result (Refuses (IsLeastIn ProblemKind (StandsInProblem t.now))) }
{
    if let Some(found) = first_fault(Role::ProblemFile, t) {
        return Err(FrontError::Refused(Fault {
            file: FileKind::Problem,
            place: found.place,
            code: found.code,
        }));
    }
    Ok(problem_of(alloc, t)?)
}
