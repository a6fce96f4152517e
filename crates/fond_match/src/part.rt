//! Numbers, sorted by the first literals of their cubes.

ghost use Rattle.fond_match.specs.Runs.{first_visits, picked, run_visits};
ghost use Rattle.fond_match.specs.Visits.{Keeps, entered};
ghost use Rattle.fond_state.specs.Cubes.{literal_at};
ghost use Rattle.std.specs.Prelude.{◌≡◌, ◌<◌, ◌++◌, ℕ, Bool, Some, All, map, length, IfOk, IfSome, OnOk};

use crate::node::Literal;
use fond_state::cube::Cube;
use fond_state::has_cube::HasCube;
use fond_state::state::State;
use fond_text::fault::NoMemory;
use std::alloc::Global;

/// By this the numbers are spread over the atoms (Knuth, The art of computer programming 3, 6.4): about 2^32 over the golden ratio.
const SPREAD: u32 = 0x9E37_79B1;

/// A number, with a literal of its cube.
#[derive(Clone, Copy, PartialEq, Eq, PartialOrd, Ord)]
struct Entry {
    literal: Literal,
    number: u32,
}

/// Numbers whose cubes have a literal.
#[derive(Drop)]
pub(crate) struct Run {
    pub(crate) literal: Literal,
    pub(crate) numbers: Vec<u32>,
}

/// Numbers in runs by literals of their cubes, and those whose cubes have no further literal.
#[derive(Drop)]
pub(crate) struct Parts {
    pub(crate) rest: Vec<u32>,
    pub(crate) runs: Vec<Run>,
}

/// The cube's first literal from this atom on.
fn first_literal(cube: &Cube, from: u32) -> Option<Literal>
    ensures { IfSome result (λ literal. literal_at cube.now literal.atom ≡ Some literal.sign) }
{
    for atom in from..cube.len() as u32 {
        if let Some(sign) = cube.literal(atom) {
            return Some(Literal { atom, sign });
        }
    }
    None
}

/// The cube's first literal that the state does not have, at an atom from `from` on and before `end`.
fn failing_literal(cube: &Cube, s: &State, from: u32, end: u32) -> Option<Literal>
    ensures { IfSome result (λ literal. literal_at cube.now literal.atom ≡ Some literal.sign) }
{
    for atom in from..end.min(s.len() as u32) {
        if let Some(sign) = cube.literal(atom) {
            if s.get(atom) != sign {
                return Some(Literal { atom, sign });
            }
        }
    }
    None
}

/// A literal of the cube that the state does not have, at an atom from `from` on. Which one depends on the number, so that an
/// atom that changes often is that of few cubes.
fn literal_against(cube: &Cube, s: &State, number: u32, from: u32) -> Option<Literal>
    ensures { IfSome result (λ literal. literal_at cube.now literal.atom ≡ Some literal.sign) }
{
    let atoms = s.len() as u32;
    if from >= atoms {
        return None;
    }
    let start = from + (number.wrapping_mul(SPREAD) >> 8) % (atoms - from);
    match failing_literal(cube, s, start, atoms) {
        Some(literal) => Some(literal),
        None => failing_literal(cube, s, from, start),
    }
}

/// A literal from `from` on that the state near which the index is asked does not have. If there is none, or no such state,
/// the cube's first literal from the split on, or else from `from` on.
fn sorting_literal(
    cube: &Cube,
    near: Option<&State>,
    number: u32,
    from: u32,
    split: u32,
) -> Option<Literal>
    ensures { IfSome result (λ literal. literal_at cube.now literal.atom ≡ Some literal.sign) }
{
    if let Some(s) = near {
        if let Some(literal) = literal_against(cube, s, number, from) {
            return Some(literal);
        }
    }
    match first_literal(cube, split) {
        Some(literal) => Some(literal),
        None => first_literal(cube, from),
    }
}

/// The numbers whose cubes have no literal to be sorted by, and the others, with theirs.
fn entries_of<T: HasCube>(
    alloc: Global,
    items: &[T],
    numbers: &[u32],
    near: Option<&State>,
    from: u32,
    split: u32,
) -> Result<(Vec<u32>, Vec<Entry>), NoMemory>
    requires { All (λ number. number < length items.now) numbers.now }
    ensures { IfOk result (λ parts. Keeps (map T.cube items.now) (λ _. numbers.now) (λ has. parts.0.items ++ picked has parts.1.items)) }
{
    let mut rest = Vec::new(alloc);
    let mut entries = Vec::new(alloc);
    for number in numbers {
        match sorting_literal(items[*number as usize].cube(), near, *number, from, split) {
            Some(literal) => entries.push(Entry {
                literal,
                number: *number,
            })?,
            None => rest.push(*number)?,
        }
    }
    Ok((rest, entries))
}

/// Adds the entry to the last run if that has its literal, and as a run of its own if not.
fn add(alloc: Global, runs: &mut Vec<Run>, entry: Entry) -> Result<(), NoMemory>
    ensures { OnOk result ((has : ℕ → Bool → Bool) → run_visits has runs.new.items ≡ run_visits has runs.old.items ++ first_visits has entry) }
{
    if let Some(mut run) = runs.pop() {
        if run.literal == entry.literal {
            run.numbers.push(entry.number)?;
            runs.push(run)?;
            return Ok(());
        }
        runs.push(run)?;
    }
    let mut numbers = Vec::new(alloc);
    numbers.push(entry.number)?;
    runs.push(Run {
        literal: entry.literal,
        numbers,
    })?;
    Ok(())
}

/// The entries in runs, where equal literals follow each other.
fn runs_of(alloc: Global, entries: &[Entry]) -> Result<Vec<Run>, NoMemory>
    ensures { IfOk result (λ runs. (has : ℕ → Bool → Bool) → run_visits has runs.items ≡ picked has entries.now) }
{
    let mut runs = Vec::new(alloc);
    for entry in entries {
        add(alloc, &mut runs, *entry)?;
    }
    Ok(runs)
}

/// Sorts the numbers by literals of their cubes from `from` on that the state near which the index is asked does not have, and
/// the others by their first literals from the split on. Those whose cubes have none there are sorted by the first ones from
/// `from` on.
pub(crate) fn part<T: HasCube>(
    alloc: Global,
    items: &[T],
    numbers: Vec<u32>,
    near: Option<&State>,
    from: u32,
    split: u32,
) -> Result<Parts, NoMemory>
    requires { All (λ number. number < length items.now) numbers.items }
    ensures { IfOk result (λ parts. Keeps (map T.cube items.now) (λ _. numbers.items) (λ has. parts.rest.items ++ run_visits has parts.runs.items)) }
{
    let (rest, mut entries) = entries_of(alloc, items, &numbers, near, from, split)?;
    entries.sort()?;
    let runs = runs_of(alloc, &entries)?;
    Ok(Parts { rest, runs })
}
