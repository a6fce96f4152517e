//! The ground task.

ghost use Rattle.fond_ground.specs.Atoms.{fluent_atoms as all_atoms};
ghost use Rattle.fond_ground.specs.Faults.{at_domain, HasManyActions, HasManyAtoms, IsGroundFault};
ghost use Rattle.fond_ground.specs.Grounds.{kept_actions, IsGroundOf};
ghost use Rattle.fond_ground.specs.Parts.{AreActsOf, ArePartsOf};
ghost use Rattle.fond_ground.specs.Values.{StandsFor};
ghost use Rattle.fond_task.specs.Within.{is_form_within};
ghost use Rattle.fond_ground.specs.Texts.{labels_of as all_labels};
ghost use Rattle.fond_join.specs.Kept.{kept_args};
ghost use Rattle.fond_ast.specs.Solutions.{initial};
ghost use Rattle.fond_text.specs.Faults.{Refuses};
ghost use Rattle.fond_text.specs.Name.{IsName};
ghost use Rattle.fond_text.specs.declared.code.TheConstants.{MOST_ACTIONS, MOST_ATOMS, TOO_MANY_ACTIONS, TOO_MANY_ATOMS};
ghost use Rattle.fond_text.specs.declared.fault.Fault.{Fault};
ghost use Rattle.std.specs.FinSet as set;
ghost use Rattle.std.specs.Prelude.{◌≡◌, ◌<◌, ◌≤◌, ◌^◌, [], true, length, map, All, IfOk, IfErr};

use crate::acts::{acts_of, kept_lists};
use crate::atoms::{atom_count, fluent_atoms};
use crate::forms::form_of;
use crate::limits::few_outcomes;
use crate::table::Table;
use fond_ast::task::LiftedTask;
use fond_join::matching::ArgsList;
use fond_state::state::State;
use fond_task::form::Form;
use fond_task::task::{Acts, Labels, Task};
use fond_text::atom::Atoms;
use fond_text::code::{MOST_ATOMS, TOO_MANY_ACTIONS, TOO_MANY_ATOMS};
use fond_text::fault::{Fault, FrontError, NoMemory};
use fond_text::name::{Name, Names};
use fond_text::place::FileKind;
use std::alloc::Global;

/// The fault of a task at the place of its domain.
fn refusal(task: &LiftedTask, code: u8) -> FrontError
    ensures { Refuses (λ fault. fault ≡ at_domain task.now.place code) result }
{
    FrontError::Refused(Fault {
        file: FileKind::Domain,
        place: task.place,
        code,
    })
}

/// The fluent atoms, or the fault of a task with too many of them, which are not listed then.
fn few_atoms(alloc: Global, task: &LiftedTask) -> Result<Atoms, FrontError>
    ensures atoms { IfOk result (λ atoms. (atoms ≡ all_atoms task.now) × (length (all_atoms task.now) ≤ MOST_ATOMS)) }
    ensures many { IfErr result (Refuses (λ fault. (fault ≡ at_domain task.now.place TOO_MANY_ATOMS) × HasManyAtoms task.now)) }
{
    if atom_count(task) > MOST_ATOMS {
        return Err(refusal(task, TOO_MANY_ATOMS));
    }
    Ok(fluent_atoms(alloc, task)?)
}

/// The argument lists of the kept actions of each schema, or the fault of a task with too many of them.
fn few_lists(alloc: Global, table: &Table) -> Result<Vec<ArgsList>, FrontError>
    ensures lists { IfOk result (λ lists. (lists.items ≡ map (kept_args table.now.facts.task.now) table.now.facts.task.now.schemas) × (length (kept_actions table.now.facts.task.now) ≤ MOST_ACTIONS)) }
    ensures many { IfErr result (Refuses (λ fault. (fault ≡ at_domain table.now.facts.task.now.place TOO_MANY_ACTIONS) × HasManyActions table.now.facts.task.now)) }
{
    match kept_lists(alloc, table)? {
        Some(lists) => Ok(lists),
        None => Err(refusal(table.facts.task, TOO_MANY_ACTIONS)),
    }
}

/// The initial state: for each of these atoms, whether it is an initial atom.
fn first_state(alloc: Global, table: &Table, atoms: &Atoms) -> Result<State, NoMemory>
    requires { length atoms.now < 2 ^ 32 }
    ensures { IfOk result (λ state. state ≡ map (set.contains (initial table.now.facts.task.now)) atoms.now) }
{
    let mut state = State::new(alloc, atoms.len() as u32)?;
    for i in 0..atoms.len() {
        let atom = atoms.get(i);
        let is_initial = table
            .facts
            .contains(atom.predicate, atom.objects.as_slice());
        state.set(i as u32, is_initial);
    }
    Ok(state)
}

/// The ground condition of the goal.
fn goal_form(alloc: Global, table: &Table) -> Result<Form, NoMemory>
    ensures within { IfOk result (λ form. is_form_within (length (all_atoms table.now.facts.task.now)) form ≡ true) }
    ensures value { IfOk result (StandsFor table.now.facts.task.now [] table.now.facts.task.now.goal) }
{
    let mut env = Vec::new(alloc);
    form_of(alloc, table, &table.facts.task.goal, &mut env)
}

/// The names of the predicates, in order.
fn predicate_names(alloc: Global, task: &LiftedTask) -> Result<Names, NoMemory>
    ensures names { IfOk result (λ names. names ≡ map (λ predicate. predicate.name) task.now.predicates) }
    ensures are_names { IfOk result (All IsName) }
{
    let mut names = Names::new(alloc);
    for i in 0..task.predicates.len() {
        names.push(task.predicates.get(i).name.copy(alloc)?)?;
    }
    Ok(names)
}

/// The names of the objects, in order.
fn object_names(alloc: Global, task: &LiftedTask) -> Result<Names, NoMemory>
    ensures names { IfOk result (λ names. names ≡ task.now.objects) }
    ensures are_names { IfOk result (All IsName) }
{
    let mut names = Names::new(alloc);
    for i in 0..task.objects.len() {
        names.push(task.objects.get(i).copy(alloc)?)?;
    }
    Ok(names)
}

/// The names of the schemas, in order.
fn schema_names(alloc: Global, task: &LiftedTask) -> Result<Names, NoMemory>
    ensures names { IfOk result (λ names. names ≡ map (λ schema. schema.name) task.now.schemas) }
    ensures are_names { IfOk result (All IsName) }
{
    let mut names = Names::new(alloc);
    for i in 0..task.schemas.len() {
        names.push(task.schemas.get(i).name.copy(alloc)?)?;
    }
    Ok(names)
}

/// The names of a task.
fn labels_of(alloc: Global, task: &LiftedTask) -> Result<Labels, NoMemory>
    ensures labels { IfOk result (λ labels. labels ≡ all_labels task.now) }
    ensures predicates { IfOk result (λ labels. All IsName labels.predicates) }
    ensures objects { IfOk result (λ labels. All IsName labels.objects) }
    ensures schemas { IfOk result (λ labels. All IsName labels.schemas) }
{
    let predicates = predicate_names(alloc, task)?;
    let objects = object_names(alloc, task)?;
    Ok(Labels {
        predicates,
        objects,
        schemas: schema_names(alloc, task)?,
    })
}

/// The actions of the ground task, its initial state and its goal.
#[derive(Drop)]
struct Parts {
    acts: Acts,
    init: State,
    goal: Form,
}

/// The actions of the ground task, or the fault of a task with too many actions, or of its first schema with too many
/// outcomes.
fn few_acts(alloc: Global, table: &Table) -> Result<Acts, FrontError>
    requires few { length (all_atoms table.now.facts.task.now) ≤ MOST_ATOMS }
    ensures acts { IfOk result (AreActsOf table.now.facts.task.now) }
    ensures refused { IfErr result (Refuses (IsGroundFault table.now.facts.task.now)) }
{
    let lists = few_lists(alloc, table)?;
    few_outcomes(table.facts.task, &lists)?;
    let acts = acts_of(alloc, table, &lists)?;
    Ok(acts)
}

/// What the ground task has over these atoms, or the fault of a task that is too large.
fn parts_by(alloc: Global, table: &Table, atoms: &Atoms) -> Result<Parts, FrontError>
    requires few { length (all_atoms table.now.facts.task.now) ≤ MOST_ATOMS }
    requires all { atoms.now ≡ all_atoms table.now.facts.task.now }
    ensures parts { IfOk result (ArePartsOf table.now.facts.task.now) }
    ensures refused { IfErr result (Refuses (IsGroundFault table.now.facts.task.now)) }
{
    let acts = few_acts(alloc, table)?;
    let init = first_state(alloc, table, atoms)?;
    let goal = goal_form(alloc, table)?;
    Ok(Parts { acts, init, goal })
}

/// What the ground task has over its fluent atoms, or the fault of a task that is too large. The index of the atoms lives
/// until all of it is there.
fn parts_of(alloc: Global, task: &LiftedTask, atoms: &Atoms) -> Result<Parts, FrontError>
    requires few { length (all_atoms task.now) ≤ MOST_ATOMS }
    requires all { atoms.now ≡ all_atoms task.now }
    ensures parts { IfOk result (ArePartsOf task.now) }
    ensures refused { IfErr result (Refuses (IsGroundFault task.now)) }
{
    let table = Table::of(alloc, task, atoms)?;
    parts_by(alloc, &table, atoms)
}

/// The ground task of a task, or the fault of a task that is too large, F21 to F23 (docs/FAULTS.md).
///
/// Fluent atoms are counted before they are listed, and of the kept actions no more are looked for than a task may have,
/// so a task that is too large is refused before its actions are grounded. Outcomes are counted before effects are written
/// out. Grounding takes time in the size of the
/// conditions and effects of the kept actions, written out over the lists of objects of their quantifiers, until a
/// constant decides the rest. Beside the result it takes memory for an index of the fluent and the initial atoms, for the
/// kept lists of objects, and for the ground effect of one action.
pub fn ground(alloc: Global, task: &LiftedTask) -> Result<Task, FrontError>
    ensures grounded { IfOk result (IsGroundOf task.now) }
    ensures clean { IfOk result (λ ground. (fault : Fault) → ¬ IsGroundFault task.now fault) }
    ensures refused { IfErr result (Refuses (IsGroundFault task.now)) }
{
    let atoms = few_atoms(alloc, task)?;
    let parts = parts_of(alloc, task, &atoms)?;
    let labels = labels_of(alloc, task)?;
    Ok(Task {
        atoms,
        acts: parts.acts,
        init: parts.init,
        goal: parts.goal,
        labels,
    })
}
