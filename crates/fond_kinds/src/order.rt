//! An order of the numbers of a forest: each number, and then all numbers below it. So the numbers below one number take
//! consecutive places. No contract speaks of the order: callers use it to guess answers that they test.

ghost use Rattle.std.specs.Prelude.{◌<◌, ◌^◌};

use crate::links::{Links, parent_at};
use fond_text::fault::NoMemory;
use std::alloc::Global;

/// The roots of a forest, and for each number its first child and the next child of its parent.
#[derive(Drop)]
struct Children {
    roots: Vec<u32>,
    firsts: Vec<Option<u32>>,
    nexts: Vec<Option<u32>>,
}

/// The children in a forest among this many numbers. Roots come later the smaller they are.
fn children_of(alloc: Global, links: &Links, count: usize) -> Result<Children, NoMemory>
    requires { count < 2 ^ 32 }
{
    let mut roots = Vec::new(alloc);
    let mut firsts = vec![in alloc; None; count]?;
    let mut nexts = vec![in alloc; None; count]?;
    for number in (0..count).rev() {
        match links.up(number as u32) {
            Some(parent) if (parent as usize) < count => {
                nexts[number] = firsts[parent as usize];
                firsts[parent as usize] = Some(number as u32);
            }
            _ => roots.push(number as u32)?,
        }
    }
    Ok(Children {
        roots,
        firsts,
        nexts,
    })
}

/// The place of each of this many numbers in the order, from 1 on. Takes time and memory in their number.
pub(crate) fn places_of(alloc: Global, links: &Links, count: usize) -> Result<Vec<u32>, NoMemory>
    requires { count < 2 ^ 32 }
{
    let Children {
        roots,
        firsts,
        nexts,
    } = children_of(alloc, links, count)?;
    let mut waiting = roots;
    let mut places = vec![in alloc; 0; count]?;
    for place in 0..count {
        let Some(number) = waiting.pop() else { break };
        if let Some(entry) = places.get_mut(number as usize) {
            *entry = (place as u32).saturating_add(1);
        }
        push_some(&mut waiting, parent_at(&nexts, number))?;
        push_some(&mut waiting, parent_at(&firsts, number))?;
    }
    Ok(places)
}

/// Adds a number, if there is one.
fn push_some(numbers: &mut Vec<u32>, number: Option<u32>) -> Result<(), NoMemory> {
    if let Some(number) = number {
        numbers.push(number)?;
    }
    Ok(())
}
