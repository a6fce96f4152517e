//! How the tree of an index is built: the numbers at a node are sorted by the first literals of their cubes past the
//! atoms at which all of these agree. Numbers of equal cubes get a branch for each literal of theirs, one below the other:
//! a query that lacks one of these literals passes over all the numbers at once. Each cube is gone through row by row, and
//! about once, or once more for each such branch. If the index is asked about states near a known one, its cubes are sorted by
//! literals that this state does not have, as long as there are any: a state that differs from it in few atoms enters few
//! branches.

ghost use Rattle.fond_match.specs.Visits.{Keeps, entered, visits};
ghost use Rattle.std.specs.Prelude.{◌≡◌, ◌<◌, ◌≤◌, All, map, length, IfOk};

use crate::node::{FEW, Literal, Node};
use crate::part::{Parts, part};
use fond_state::has_cube::HasCube;
use fond_state::state::State;
use fond_text::fault::NoMemory;
use std::alloc::Global;

/// The atom from which on the cubes of the numbers are sorted by their first literals: the first from `from` on at which they
/// differ, or `from` if they are equal from there on. They are known to agree before `agreed`, which is not looked at again.
/// Only how fast a search is depends on it.
fn first_split<T: HasCube>(items: &[T], numbers: &[u32], from: u32, agreed: u32) -> u32
    requires { All (λ number. number < length items.now) numbers.now }
{
    let Some(first) = numbers.first() else {
        return from;
    };
    let cube = items[*first as usize].cube();
    let atoms = agreed.max(cube.len() as u32);
    let mut end = atoms;
    for number in numbers {
        end = cube.first_difference(items[*number as usize].cube(), agreed, end);
    }
    if end < atoms { end } else { from }
}

/// A number that none of these is below.
fn least_of(numbers: &[u32]) -> u32
    ensures { All (λ number. result ≤ number) numbers.now }
{
    let mut least = u32::MAX;
    for number in numbers {
        if *number < least {
            least = *number;
        }
    }
    least
}

/// Whether a state is given which does not have the literal, at an atom from `from` on.
fn is_against(near: Option<&State>, literal: Literal, from: u32) -> bool {
    let Some(s) = near else {
        return false;
    };
    let is_known = literal.atom >= from && (literal.atom as usize) < s.len();
    is_known && s.get(literal.atom) != literal.sign
}

/// How a branch with this literal is grown: near which state, if its cubes were sorted by a literal which that one does not
/// have; from which atom on; and the atom before which the cubes agree. A branch that passes over literals that all cubes share
/// starts at `from` again.
fn branch_at(
    near: Option<&State>,
    literal: Literal,
    from: u32,
    split: u32,
    agreed: u32,
) -> (Option<&State>, u32, u32) {
    let past = literal.atom.saturating_add(1);
    if is_against(near, literal, from) {
        return (near, past, agreed);
    }
    if split > from && literal.atom >= split {
        (None, from, agreed.max(past))
    } else {
        (None, past, agreed.max(past))
    }
}

/// The node of a literal over these numbers, sorted by the literals of their cubes from `from` on, along at most `depth`
/// branches. Without a state near which the index is asked, the cubes agree from there up to `agreed`. With one, they are sorted
/// by the literals that it does not have first.
pub(crate) fn grow<T: HasCube>(
    alloc: Global,
    items: &[T],
    literal: Option<Literal>,
    numbers: Vec<u32>,
    near: Option<&State>,
    from: u32,
    agreed: u32,
    depth: u32,
) -> Result<Node, NoMemory>
    requires { All (λ number. number < length items.now) numbers.items }
    ensures { IfOk result (λ node. Keeps (map T.cube items.now) (λ has. entered has literal numbers.items) (λ has. visits has node)) }
{
    let least = least_of(&numbers);
    if numbers.len() <= FEW || depth == 0 {
        let branches = Vec::new(alloc);
        return Ok(Node {
            literal,
            least,
            numbers,
            branches,
        });
    }
    let split = match near {
        Some(_) => 0,
        None => first_split(items, &numbers, from, agreed),
    };
    let Parts { rest, mut runs } = part(alloc, items, numbers, near, from, split)?;
    let mut branches = Vec::new(alloc);
    while let Some(run) = runs.pop() {
        let own = run.literal;
        let (near, from, agreed) = branch_at(near, own, from, split, agreed);
        branches.push(grow(
            alloc,
            items,
            Some(own),
            run.numbers,
            near,
            from,
            agreed,
            depth - 1,
        )?)?;
    }
    Ok(Node {
        literal,
        least,
        numbers: rest,
        branches,
    })
}
