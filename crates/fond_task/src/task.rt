//! The types of a ground task.

ghost use Rattle.fond_task.specs.Distinct.{are_distinct_atoms, are_distinct_acts};
ghost use Rattle.fond_task.specs.Named.{is_named_atom, is_named_action};
ghost use Rattle.fond_task.specs.Within.{is_form_within, is_act_within};
ghost use Rattle.fond_text.specs.Lists.{are_distinct_texts};
ghost use Rattle.fond_text.specs.Name.{IsName};
ghost use Rattle.std.specs.List.{list_all};
ghost use Rattle.std.specs.Prelude.{◌≡◌, ◌<◌, ◌^◌, length, All, IsTrue};

use crate::form::Form;
use crate::shared::Shared;
use fond_state::state::State;
use fond_text::atom::{Atoms, GroundAction};
use fond_text::list::List;
use fond_text::name::Names;

/// One effect of an outcome: if the condition holds, the atom becomes true (`add`) or false.
#[derive(Drop)]
pub struct Entry {
    pub cond: Form,
    pub atom: u32,
    pub add: bool,
}

/// The entries of one outcome, in order.
pub type Outcome = List<Entry>;

/// The outcomes of an action, in order.
pub type Outcomes = List<Outcome>;

/// A ground action: its name, its precondition, who picks its outcome (an opponent if it is unfair, chance if it is
/// not), and its outcomes. Actions may own one precondition and one list of outcomes together.
#[derive(Drop)]
pub struct Act {
    pub ground: GroundAction,
    pub pre: Shared<Form>,
    pub unfair: bool,
    pub outcomes: Shared<Outcomes>,
}

/// Ground actions, in order.
pub type Acts = List<Act>;

/// The names of a task's predicates, objects and schemas, by their numbers.
#[derive(Drop)]
pub struct Labels {
    pub predicates: Names,
    pub objects: Names,
    pub schemas: Names,
}

/// A ground task. No atom and no action occurs twice, no two predicates, objects or schemas have the same name, and the
/// predicate, schema and objects of each atom and action have a name. The conditions and effects are over the task's
/// atoms, the initial state gives a truth value to each of them, and each action has 1 to 256 outcomes.
#[derive(Drop)]
pub struct Task {
    pub atoms: Atoms,
    pub acts: Acts,
    pub init: State,
    pub goal: Form,
    pub labels: Labels,
    pub ghost few_atoms: { length atoms < 2 ^ 32 },
    pub ghost few_acts: { length acts < 2 ^ 32 },
    pub ghost distinct_atoms: { IsTrue (are_distinct_atoms atoms) },
    pub ghost distinct_acts: { IsTrue (are_distinct_acts acts) },
    pub ghost distinct_predicates: { IsTrue (are_distinct_texts labels.predicates) },
    pub ghost distinct_objects: { IsTrue (are_distinct_texts labels.objects) },
    pub ghost distinct_schemas: { IsTrue (are_distinct_texts labels.schemas) },
    pub ghost predicate_names: { All IsName labels.predicates },
    pub ghost object_names: { All IsName labels.objects },
    pub ghost schema_names: { All IsName labels.schemas },
    pub ghost named_atoms: { IsTrue (list_all (is_named_atom labels) atoms) },
    pub ghost named_acts: { IsTrue (list_all (λ act. is_named_action labels act.ground) acts) },
    pub ghost init_long: { length init ≡ length atoms },
    pub ghost goal_within: { IsTrue (is_form_within (length atoms) goal) },
    pub ghost acts_within: { IsTrue (list_all (is_act_within (length atoms)) acts) },
}
