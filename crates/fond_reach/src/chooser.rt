//! Policies that choose an action in each state, or none.

ghost use Rattle.fond_rules.specs.Belongs.{BelongTo};
ghost use Rattle.fond_rules.specs.Tables.{BelongAsRows};
ghost use Rattle.std.specs.Prelude.{◌≡◌, ◌<◌, length, IfSome};

use fond_rules::rules::Rules;
use fond_rules::table::Table;
use fond_state::state::State;
use fond_task::task::Task;
use std::marker::Model;

/// Says what is chosen in a state of a task.
pub trait Chooser {
    ghost use Rattle.fond_task.specs.Policies.{Policy};
    ghost use Rattle.fond_task.specs.declared.task.Task.{Task};

    /// The task for which it chooses.
    ghost task: { Self → Task };

    /// What it chooses.
    ghost policy: { Self → Policy };

    /// The action that is chosen in the state, if one is. It need not be applicable.
    fn choose(&self, state: &State) -> Option<u32>
        requires { length state.now ≡ length (task self.now).atoms }
        ensures chosen { result ≡ policy self.now state.now }
        ensures there { IfSome result (λ act. act < length (task self.now).acts) };
}

/// The choices of the first rules that hold in the states of a task.
#[derive(Drop)]
pub struct FirstRules<'a> {
    task: &'a Task,
    rules: &'a Rules,
}

impl<'a> Model for FirstRules<'a> {
    ghost use Rattle.fond_rules.specs.Belongs.{BelongTo};
    ghost use Rattle.fond_reach.specs.Choices.{TaskRules};
    ghost use Rattle.fond_task.specs.contracts.form.Form as form;
    ghost use Rattle.std.specs.Coded.{codes};

    ghost Value = { TaskRules };

    ghost coded = { Prim.hlevel (codes, form.the_row.coded) };

    ghost view = { λ c. record { task = c.task.now; rules = c.rules.now } };

    ghost invariant = { λ c. BelongTo c.task.now c.rules.now };
}

impl<'a> FirstRules<'a> {
    /// The choices of these rules, which belong to the task.
    pub fn new(task: &'a Task, rules: &'a Rules) -> FirstRules<'a>
        requires { BelongTo task.now rules.now }
        ensures { result ≡ record { task = task.now; rules = rules.now } }
    {
        FirstRules { task, rules }
    }
}

impl<'a> Chooser for FirstRules<'a> {
    ghost use Rattle.fond_task.specs.Policies.{selected};

    ghost task = { λ c. c.task };

    ghost policy = { λ c. selected c.rules };

    fn choose(&self, state: &State) -> Option<u32> {
        let Some(rule) = self.rules.select(state) else {
            return None;
        };
        Some(self.rules.get(rule).act)
    }
}

/// The choices of the first rows of a table that hold in the states of a task.
#[derive(Drop)]
pub struct FirstRows<'a> {
    task: &'a Task,
    table: &'a Table,
}

impl<'a> Model for FirstRows<'a> {
    ghost use Rattle.fond_rules.specs.Tables.{BelongAsRows};
    ghost use Rattle.fond_reach.specs.Choices.{TaskTable};
    ghost use Rattle.fond_task.specs.contracts.form.Form as form;
    ghost use Rattle.std.specs.Coded.{codes};

    ghost Value = { TaskTable };

    ghost coded = { Prim.hlevel (codes, form.the_row.coded) };

    ghost view = { λ c. record { task = c.task.now; rows = c.table.now } };

    ghost invariant = { λ c. BelongAsRows c.task.now c.table.now };
}

impl<'a> FirstRows<'a> {
    /// The choices of this table, which belongs to the task.
    pub fn new(task: &'a Task, table: &'a Table) -> FirstRows<'a>
        requires { BelongAsRows task.now table.now }
        ensures { result ≡ record { task = task.now; rows = table.now } }
    {
        FirstRows { task, table }
    }
}

impl<'a> Chooser for FirstRows<'a> {
    ghost use Rattle.fond_rules.specs.Tables.{table_choice};

    ghost task = { λ c. c.task };

    ghost policy = { λ c. table_choice c.rows };

    fn choose(&self, state: &State) -> Option<u32> {
        let Some(row) = self.table.select(state) else {
            return None;
        };
        Some(self.table.get(row).act)
    }
}
