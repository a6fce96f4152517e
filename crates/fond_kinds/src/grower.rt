//! Growing a forest among numbers with parents: from each number that was not met, parents are followed to one that was met or
//! to the end, and then the numbers of this path are added, the last one first. If its parent is on the path itself, the path
//! ends in a cycle, whose link from the last number is left out.

ghost use Rattle.fond_kinds.specs.Forests.{IsWhole, is_marked, planted, attached};
ghost use Rattle.fond_kinds.specs.Growth.{Adds, Meets, IsGrowing, IsResting, IsWalked, IsUnwinding, is_met, is_done};
ghost use Rattle.fond_kinds.specs.Parents.{are_within, parent_of};
ghost use Rattle.std.specs.Prelude.{◌≡◌, ◌⊎◌, ◌<◌, ◌^◌, [], ℕ, List, true, false, Some, length, slice_index, MatchOption, IfOk, OnOk};

use crate::links::{Links, parent_at};
use fond_text::fault::NoMemory;
use std::alloc::Global;

/// A forest that grows, with the numbers that were met and those that were added so far.
#[derive(Drop)]
pub(crate) struct Grower<'a> {
    pub(crate) parents: &'a [Option<u32>],
    pub(crate) links: Links,
    pub(crate) seen: Vec<bool>,
    pub(crate) done: Vec<bool>,
    pub(crate) count: u32,
}

/// Whether a number has a mark.
fn is_marked_at(marks: &[bool], at: u32) -> bool
    ensures { result ≡ is_marked marks.now at }
{
    match marks.get(at as usize) {
        Some(mark) => *mark,
        None => false,
    }
}

impl<'a> Grower<'a> {
    /// The empty forest among these parents.
    fn of(alloc: Global, parents: &'a [Option<u32>]) -> Result<Grower<'a>, NoMemory>
        requires { are_within parents.now ≡ true }
        ensures resting { IfOk result IsResting }
        ensures parents { IfOk result (λ grower. grower.parents.now ≡ parents.now) }
    {
        Ok(Grower {
            parents,
            links: Links::of(alloc, parents.len())?,
            seen: vec![in alloc; false; parents.len()]?,
            done: vec![in alloc; false; parents.len()]?,
            count: 0,
        })
    }

    /// The parent of a number, if it has one that was not met.
    fn unmet_parent(&self, number: u32) -> Option<u32>
        requires { IsGrowing self.now }
        ensures unmet { MatchOption result
            ((parent : ℕ) → parent_of self.now.parents.now number ≡ Some parent → is_met self.now parent ≡ true)
            (λ parent. (parent_of self.now.parents.now number ≡ Some parent) × (is_met self.now parent ≡ false) × (parent < length self.now.seen.items)) }
    {
        match parent_at(self.parents, number) {
            Some(parent) if !is_marked_at(&self.seen, parent) => Some(parent),
            _ => None,
        }
    }

    /// Meets a number.
    fn meet(&mut self, number: u32)
        requires { number < length self.old.seen.items }
        ensures { Meets self.old self.new number }
    {
        self.seen[number as usize] = true;
    }

    /// Meets the numbers from a new one on, until one has no parent or one that was met: the last one. The path has those
    /// before it.
    fn walk(&mut self, start: u32, path: &mut Vec<u32>) -> Result<u32, NoMemory>
        requires resting { IsResting self.old }
        requires new { is_met self.old start ≡ false }
        requires there { start < length self.old.parents.now }
        requires empty { path.old.items ≡ [] }
        ensures walked { IfOk result (IsWalked self.new path.new.items) }
        ensures start { OnOk result (is_met self.new start ≡ true) }
        ensures kept { OnOk result (self.new.parents.now ≡ self.old.parents.now) }
        ensures done { OnOk result (self.new.done.items ≡ self.old.done.items) }
    {
        let mut at = start;
        self.meet(at);
        while let Some(next) = self.unmet_parent(at) {
            path.push(at)?;
            self.meet(next);
            at = next;
        }
        Ok(at)
    }

    /// Adds a number as the root of a tree.
    fn plant(&mut self, number: u32)
        requires growing { IsGrowing self.old }
        requires waits { is_done self.old number ≡ false }
        requires there { number < length self.old.parents.now }
        requires few { length self.old.parents.now < 2 ^ 32 }
        ensures { Adds self.old self.new number (planted self.old.links number self.old.count) }
    {
        self.links.plant(number, self.count);
        self.done[number as usize] = true;
        self.count += 1;
    }

    /// Adds a number below its parent, which was added before.
    fn attach(&mut self, number: u32, parent: u32)
        requires growing { IsGrowing self.old }
        requires waits { is_done self.old number ≡ false }
        requires there { number < length self.old.parents.now }
        requires parent_there { parent < length self.old.parents.now }
        requires few { length self.old.parents.now < 2 ^ 32 }
        ensures { (jump : ℕ) × ((jump ≡ parent) ⊎ (jump ≡ slice_index self.old.links.jumps (slice_index self.old.links.jumps parent)))
            × Adds self.old self.new number (attached self.old.links number parent self.old.count jump) }
    {
        self.links.attach(number, parent, self.count);
        self.done[number as usize] = true;
        self.count += 1;
    }

    /// Adds the last number of a path: below its parent if that was added, and else as a root.
    fn finish(&mut self, last: u32)
        requires few { length self.old.parents.now < 2 ^ 32 }
        requires there { last < length self.old.parents.now }
        requires growing { IsGrowing self.old }
        requires waits { is_done self.old last ≡ false }
        ensures kept { self.new.parents.now ≡ self.old.parents.now }
        ensures met { (number : ℕ) → is_met self.old number ≡ true → is_met self.new number ≡ true }
        ensures grown { (number : ℕ) → is_done self.old number ≡ true → is_done self.new number ≡ true }
        ensures unwinding { (path : List ℕ) → IsWalked self.old path last → IsUnwinding self.new path last last }
    {
        match parent_at(self.parents, last) {
            Some(parent) if is_marked_at(&self.done, parent) => self.attach(last, parent),
            _ => self.plant(last),
        }
    }

    /// Adds the numbers of a path, the last one first, each below the one after it.
    fn unwind(&mut self, path: &mut Vec<u32>, last: u32)
        requires few { length self.old.parents.now < 2 ^ 32 }
        requires unwinding { IsUnwinding self.old path.old.items last last }
        ensures empty { path.new.items ≡ [] }
        ensures kept { self.new.parents.now ≡ self.old.parents.now }
        ensures resting { IsResting self.new }
        ensures met { (number : ℕ) → is_met self.old number ≡ true → is_met self.new number ≡ true }
        ensures grown { (number : ℕ) → is_done self.old number ≡ true → is_done self.new number ≡ true }
    {
        let mut above = last;
        while let Some(number) = path.pop() {
            self.attach(number, above);
            above = number;
        }
    }

    /// Adds a number with all numbers above it, if it was not added before.
    fn grow(&mut self, start: u32, path: &mut Vec<u32>) -> Result<(), NoMemory>
        requires few { length self.old.parents.now < 2 ^ 32 }
        requires resting { IsResting self.old }
        requires there { start < length self.old.parents.now }
        requires empty { path.old.items ≡ [] }
        ensures empty { OnOk result (path.new.items ≡ []) }
        ensures kept { OnOk result (self.new.parents.now ≡ self.old.parents.now) }
        ensures resting { OnOk result (IsResting self.new) }
        ensures added { OnOk result (is_done self.new start ≡ true) }
        ensures grown { OnOk result ((number : ℕ) → is_done self.old number ≡ true → is_done self.new number ≡ true) }
    {
        if is_marked_at(&self.seen, start) {
            return Ok(());
        }
        let last = self.walk(start, path)?;
        self.finish(last);
        self.unwind(path, last);
        Ok(())
    }
}

/// The forest of all numbers among these parents. Takes time and memory in their number.
pub(crate) fn grown(alloc: Global, parents: &[Option<u32>]) -> Result<Links, NoMemory>
    requires within { are_within parents.now ≡ true }
    requires few { length parents.now < 2 ^ 32 }
    ensures { IfOk result (IsWhole parents.now) }
{
    let mut grower = Grower::of(alloc, parents)?;
    let mut path = Vec::new(alloc);
    for start in 0..parents.len() {
        grower.grow(start as u32, &mut path)?;
    }
    let Grower { links, .. } = grower;
    Ok(links)
}
