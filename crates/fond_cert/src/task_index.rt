//! The numbers of a task's actions and atoms by how they are written.

ghost use Rattle.fond_store.specs.Texts.{number_beside};
ghost use Rattle.fond_task.specs.Numbers.{act_number, atom_number};
ghost use Rattle.std.specs.Prelude.{◌≡◌, IfOk, List, ℕ};

use fond_store::index::TextIndex;
use fond_task::task::Task;
use fond_task::text::{put_action, put_atom};
use fond_text::fault::NoMemory;
use fond_text::text::Text;
use std::alloc::Global;
use std::marker::Model;

/// A task with its actions and atoms by their texts. Contracts see it as the task.
#[derive(Drop)]
pub struct TaskIndex<'a> {
    task: &'a Task,
    acts: TextIndex,
    atoms: TextIndex,
}

impl<'a> Model for TaskIndex<'a> {
    ghost use Rattle.std.specs.Prelude.{◌≡◌, List, ℕ};
    ghost use Rattle.fond_store.specs.Texts.{number_beside};
    ghost use Rattle.fond_task.specs.Numbers.{act_number, atom_number};
    ghost use Rattle.fond_task.specs.declared.task.Task.{Task};
    ghost use Rattle.fond_task.specs.contracts.form.Form as form;
    ghost use Rattle.std.specs.Coded.{codes};

    ghost Value = { Task };

    ghost coded = { Prim.hlevel (codes, form.the_row.coded) };

    ghost view = { λ x. x.task.now };

    ghost invariant = { λ x. ((text : List ℕ) → number_beside x.acts text ≡ act_number x.task.now text)
        × ((text : List ℕ) → number_beside x.atoms text ≡ atom_number x.task.now text) };
}

/// The texts of the actions with their numbers. If several actions have one text, the first counts.
fn act_numbers(alloc: Global, task: &Task) -> Result<TextIndex, NoMemory>
    ensures { IfOk result (λ numbers. (text : List ℕ) → number_beside numbers text ≡ act_number task.now text) }
{
    let mut numbers = TextIndex::new(alloc);
    for i in 0..task.acts.len() {
        let mut text = Text::new(alloc);
        put_action(&task.labels, &task.acts.get(i).ground, &mut text);
        let bytes = text.finish()?;
        numbers.insert(bytes, i as u32)?;
    }
    Ok(numbers)
}

/// The texts of the atoms with their numbers. If several atoms have one text, the first counts.
fn atom_numbers(alloc: Global, task: &Task) -> Result<TextIndex, NoMemory>
    ensures { IfOk result (λ numbers. (text : List ℕ) → number_beside numbers text ≡ atom_number task.now text) }
{
    let mut numbers = TextIndex::new(alloc);
    for i in 0..task.atoms.len() {
        let mut text = Text::new(alloc);
        put_atom(&task.labels, task.atoms.get(i), &mut text);
        let bytes = text.finish()?;
        numbers.insert(bytes, i as u32)?;
    }
    Ok(numbers)
}

impl<'a> TaskIndex<'a> {
    /// The index of a task. Takes time and memory in the length of the texts of all actions and atoms, however few
    /// of them are looked up.
    pub fn of(alloc: Global, task: &'a Task) -> Result<TaskIndex<'a>, NoMemory>
        ensures { IfOk result (λ index. index ≡ task.now) }
    {
        let acts = act_numbers(alloc, task)?;
        let atoms = atom_numbers(alloc, task)?;
        Ok(TaskIndex { task, acts, atoms })
    }

    /// The task.
    pub fn task(&self) -> &'a Task
        ensures { result.now ≡ self.now }
    {
        self.task
    }

    /// The number of the first action with this text, if the task has one. Takes time in the length of the text.
    pub fn act(&self, text: &[u8]) -> Option<u32>
        ensures { result ≡ act_number self.now text.now }
    {
        self.acts.find(text)
    }

    /// The number of the first atom with this text, if the task has one. Takes time in the length of the text.
    pub fn atom(&self, text: &[u8]) -> Option<u32>
        ensures { result ≡ atom_number self.now text.now }
    {
        self.atoms.find(text)
    }
}
