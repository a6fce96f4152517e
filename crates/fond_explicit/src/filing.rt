//! Filing actions, and finding those that may be applicable.

ghost use Rattle.fond_explicit.specs.Filings.{Needs, filed_under, FilesOne, AreFiled, IsIndexOf, AreCollected, AreCandidates};
ghost use Rattle.fond_state.specs.Cubes.{truth_at};
ghost use Rattle.fond_task.specs.declared.form.Form.{Form};
ghost use Rattle.std.specs.Prelude.{◌≡◌, ◌⊎◌, ◌<◌, ◌+◌, ◌++◌, [], if◌then◌else◌, ℕ, Contains, length, IfOk, IfSome, OnOk};

use crate::act_index::ActIndex;
use fond_state::state::State;
use fond_task::form::Form;
use fond_task::task::Task;
use fond_text::fault::NoMemory;
use fond_text::list::List;
use std::alloc::Global;

/// How many actions have this atom as a conjunct of their preconditions, as far as it was counted.
fn count_of(counts: &[u32], atom: u32) -> u32 {
    match counts.get(atom as usize) {
        Some(count) => *count,
        None => 0,
    }
}

/// Counts an atom once more.
fn count(counts: &mut [u32], atom: u32) {
    match counts.get_mut(atom as usize) {
        Some(count) => *count = count.saturating_add(1),
        None => {}
    }
}

/// Counts the atoms that are conjuncts of a form.
fn count_conjuncts(counts: &mut [u32], form: &Form) {
    match form {
        Form::Lit(atom, true) => count(counts, *atom),
        Form::And(parts) => {
            for part in parts {
                if let Form::Lit(atom, true) = part {
                    count(counts, *atom);
                }
            }
        }
        _ => {}
    }
}

/// The atom of a form that is a positive literal.
fn positive(form: &Form) -> Option<u32>
    ensures { IfSome result (Needs form.now) }
{
    match form {
        Form::Lit(atom, true) => Some(*atom),
        _ => None,
    }
}

/// The rarer one of two atoms, by their counts, if there are two.
fn rarer(counts: &[u32], one: Option<u32>, other: Option<u32>) -> Option<u32>
    ensures { (result ≡ one) ⊎ (result ≡ other) }
{
    match (one, other) {
        (Some(a), Some(b)) => {
            if count_of(counts, b) < count_of(counts, a) {
                other
            } else {
                one
            }
        }
        (None, _) => other,
        (_, None) => one,
    }
}

/// The rarest atom that is a positive literal among parts of a conjunction.
fn rarest(counts: &[u32], parts: &[Form]) -> Option<u32>
    ensures { IfSome result (λ atom. (part : Form) × Contains parts.now part × Needs part atom) }
{
    let mut atom = None;
    for part in parts {
        atom = rarer(counts, atom, positive(part));
    }
    atom
}

/// An atom that the form needs: the rarest one that is a conjunct of it.
fn needed(counts: &[u32], form: &Form) -> Option<u32>
    ensures { IfSome result (Needs form.now) }
{
    match form {
        Form::And(parts) => rarest(counts, parts),
        _ => positive(form),
    }
}

/// Files an action under an atom, or among those that are always tried if there is none.
fn file(index: &mut ActIndex, atom: Option<u32>, number: u32) -> Result<(), NoMemory>
    ensures { OnOk result (FilesOne index.old index.new atom number) }
{
    let Some(under) = atom else {
        index.always.push(number)?;
        return Ok(());
    };
    if under as usize >= index.by_atom.len() {
        index.always.push(number)?;
        return Ok(());
    }
    index.by_atom[under as usize].push(number)?;
    Ok(())
}

/// Files the action of a number under the rarest atom that its precondition needs.
fn file_act(index: &mut ActIndex, counts: &[u32], t: &Task, number: u32) -> Result<(), NoMemory>
    requires { number < length t.now.acts }
    ensures { OnOk result (AreFiled t.now number index.old → AreFiled t.now (number + 1) index.new) }
{
    let atom = needed(counts, &t.acts.get(number as usize).pre);
    file(index, atom, number)?;
    Ok(())
}

/// For each atom, how many actions have it as a conjunct of their preconditions.
fn conjunct_counts(alloc: Global, t: &Task) -> Result<Vec<u32>, NoMemory> {
    let mut counts = vec![in alloc; 0; t.atoms.len()]?;
    for act in t.acts.as_slice() {
        count_conjuncts(&mut counts, &act.pre);
    }
    Ok(counts)
}

/// Empty lists, one for each atom.
fn no_lists(alloc: Global, atoms: usize) -> Result<Vec<List<u32>>, NoMemory>
    ensures { IfOk result (λ lists. (atom : ℕ) → filed_under lists.items atom ≡ []) }
{
    let mut lists = Vec::new(alloc);
    for _ in 0..atoms {
        lists.push(List::new(alloc))?;
    }
    Ok(lists)
}

/// The index of the actions of a task. Takes time in the size of the preconditions, and memory in the number of atoms and
/// actions.
pub fn index_of(alloc: Global, t: &Task) -> Result<ActIndex, NoMemory>
    ensures { IfOk result (IsIndexOf t.now) }
{
    let counts = conjunct_counts(alloc, t)?;
    let mut index = ActIndex {
        by_atom: no_lists(alloc, t.atoms.len())?,
        always: Vec::new(alloc),
    };
    for number in 0..t.acts.len() as u32 {
        file_act(&mut index, &counts, t, number)?;
    }
    Ok(index)
}

/// Adds the actions that are filed under an atom, if it is true.
fn add_filed(index: &ActIndex, state: &State, atom: u32, out: &mut Vec<u32>) -> Result<(), NoMemory>
    requires { atom < length state.now }
    ensures { OnOk result (out.new.items ≡ out.old.items ++ (if truth_at state.now atom then filed_under index.now.by_atom.items atom else [])) }
{
    if !state.get(atom) {
        return Ok(());
    }
    let Some(list) = index.by_atom.get(atom as usize) else {
        return Ok(());
    };
    out.extend_from_slice(list.as_slice())?;
    Ok(())
}

/// Adds the actions that are filed under the true atoms.
fn collect(index: &ActIndex, state: &State, out: &mut Vec<u32>) -> Result<(), NoMemory>
    ensures { OnOk result (AreCollected index.now.by_atom.items state.now (length state.now) out.old.items out.new.items) }
{
    for atom in 0..state.len() as u32 {
        add_filed(index, state, atom, out)?;
    }
    Ok(())
}

/// The actions that may be applicable in a state, in order: those filed under its true atoms, and those that are always
/// tried. Takes time in the number of atoms and in that of the actions found, times its logarithm.
pub fn candidates(
    index: &ActIndex,
    t: &Task,
    state: &State,
    out: &mut Vec<u32>,
) -> Result<(), NoMemory>
    requires { IsIndexOf t.now index.now }
    ensures { OnOk result (AreCandidates t.now state.now out.new.items) }
{
    out.clear();
    out.extend_from_slice(index.always.as_slice())?;
    collect(index, state, out)?;
    out.sort_unstable();
    out.dedup();
    Ok(())
}
