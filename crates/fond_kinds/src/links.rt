//! A forest among numbers with parents, built number by number.

ghost use Rattle.fond_kinds.specs.Forests.{Forest, IsStep, IsWhole, planted, attached};
ghost use Rattle.fond_kinds.specs.Parents.{IsBelow, parent_of};
ghost use Rattle.std.specs.Bool.{Decides};
ghost use Rattle.std.specs.Prelude.{◌≡◌, ◌⊎◌, ◌<◌, ℕ, List, Option, None, length, slice_index, slice_index_or, IfOk, IfSome, IfNone};

use fond_text::fault::NoMemory;
use std::alloc::Global;
use std::marker::Model;

/// For each number the parent that it keeps, when it was added, the root of its tree, and a jump to some number above it. The
/// jumps are those of a skew-binary list (Myers, An applicative random-access stack, 1983), so that a logarithmic number of
/// steps leads to any number above.
#[derive(Drop)]
pub(crate) struct Links {
    ups: Vec<Option<u32>>,
    times: Vec<u32>,
    roots: Vec<u32>,
    jumps: Vec<u32>,
    /// The number of steps to the root, by which jumps are chosen.
    depths: Vec<u32>,
}

impl Model for Links {
    ghost use Rattle.fond_kinds.specs.Forests.{Forest};
    ghost use Rattle.std.specs.Prelude.{◌≡◌, length};

    ghost Value = { Forest };

    ghost view = { λ l. record { ups = l.ups.items; times = l.times.items; roots = l.roots.items; jumps = l.jumps.items } };

    ghost invariant = { λ l. (length l.times.items ≡ length l.ups.items) × (length l.roots.items ≡ length l.ups.items)
        × (length l.jumps.items ≡ length l.ups.items) × (length l.depths.items ≡ length l.ups.items) };
}

/// The parent at an index, if there is one.
pub(crate) fn parent_at(parents: &[Option<u32>], at: u32) -> Option<u32>
    ensures { result ≡ parent_of parents.now at }
{
    match parents.get(at as usize) {
        Some(parent) => *parent,
        None => None,
    }
}

impl Links {
    /// Links among this many numbers, of which none has been added.
    pub(crate) fn of(alloc: Global, count: usize) -> Result<Links, NoMemory>
        ensures over { IfOk result (λ l. (length l.ups ≡ count) × (length l.times ≡ count) × (length l.roots ≡ count) × (length l.jumps ≡ count)) }
        ensures empty { IfOk result (λ l. (number : ℕ) → parent_of l.ups number ≡ None) }
    {
        Ok(Links {
            ups: vec![in alloc; None; count]?,
            times: vec![in alloc; 0; count]?,
            roots: vec![in alloc; 0; count]?,
            jumps: vec![in alloc; 0; count]?,
            depths: vec![in alloc; 0; count]?,
        })
    }

    /// The count of the numbers.
    fn len(&self) -> usize
        ensures { result ≡ length self.now.ups }
    {
        self.ups.len()
    }

    /// The parent that a number keeps.
    pub(crate) fn up(&self, number: u32) -> Option<u32>
        ensures { result ≡ parent_of self.now.ups number }
    {
        parent_at(&self.ups, number)
    }

    /// When a number was added.
    pub(crate) fn time(&self, number: u32) -> u32
        requires { number < length self.now.ups }
        ensures { result ≡ slice_index self.now.times number }
    {
        self.times[number as usize]
    }

    /// The root of a number's tree.
    pub(crate) fn root(&self, number: u32) -> u32
        requires { number < length self.now.ups }
        ensures { result ≡ slice_index self.now.roots number }
    {
        self.roots[number as usize]
    }

    /// Some number above.
    pub(crate) fn jump(&self, number: u32) -> u32
        requires { number < length self.now.ups }
        ensures { result ≡ slice_index self.now.jumps number }
    {
        self.jumps[number as usize]
    }

    /// Adds a number as the root of a tree.
    pub(crate) fn plant(&mut self, number: u32, time: u32)
        requires { number < length self.old.ups }
        ensures { self.new ≡ planted self.old number time }
    {
        let at = number as usize;
        self.times[at] = time;
        self.roots[at] = number;
        self.jumps[at] = number;
        self.depths[at] = 0;
    }

    /// The jump of a child of a number: twice the jump of the number where its two last jumps are of one length, and else the
    /// number itself.
    fn jump_below(&self, parent: u32) -> u32
        requires parent { parent < length self.now.ups }
        ensures { (result ≡ parent) ⊎ (result ≡ slice_index self.now.jumps (slice_index self.now.jumps parent)) }
    {
        let jump = self.jumps[parent as usize];
        if jump as usize >= self.jumps.len() {
            return parent;
        }
        let far = self.jumps[jump as usize];
        if far as usize >= self.jumps.len() {
            return parent;
        }
        let depth = self.depths[parent as usize];
        let middle = self.depths[jump as usize];
        let top = self.depths[far as usize];
        if depth.wrapping_sub(middle) == middle.wrapping_sub(top) {
            far
        } else {
            parent
        }
    }

    /// Adds a number below its parent, which was added before.
    pub(crate) fn attach(&mut self, number: u32, parent: u32, time: u32)
        requires number { number < length self.old.ups }
        requires parent { parent < length self.old.ups }
        ensures { (jump : ℕ) × ((jump ≡ parent) ⊎ (jump ≡ slice_index self.old.jumps (slice_index self.old.jumps parent))) × (self.new ≡ attached self.old number parent time jump) }
    {
        let at = number as usize;
        let jump = self.jump_below(parent);
        self.ups[at] = Some(parent);
        self.times[at] = time;
        self.roots[at] = self.roots[parent as usize];
        self.jumps[at] = jump;
        self.depths[at] = self.depths[parent as usize].saturating_add(1);
    }

    /// The next number on the way up from a number that is later than this time: its jump, if that is no earlier, or its
    /// parent.
    fn step(&self, at: u32, time: u32) -> Option<u32>
        requires whole { (parents : List (Option ℕ)) × IsWhole parents self.now }
        requires there { at < length self.now.ups }
        requires late { time < slice_index self.now.times at }
        ensures some { IfSome result (IsStep self.now at time) }
        ensures none { IfNone result (parent_of self.now.ups at ≡ None) }
    {
        let jump = self.jump(at);
        if jump != at && (jump as usize) < self.len() && self.time(jump) >= time {
            Some(jump)
        } else {
            self.up(at)
        }
    }

    /// Whether the first number is below the second in the forest. Takes a number of steps that is logarithmic in the depth
    /// of the first.
    pub(crate) fn is_under(&self, number: u32, above: u32) -> bool
        requires whole { (parents : List (Option ℕ)) × IsWhole parents self.now }
        requires number { number < length self.now.ups }
        requires above { above < length self.now.ups }
        ensures { Decides result (IsBelow self.now.ups number above) }
    {
        let time = self.time(above);
        let mut at = number;
        while self.time(at) > time {
            match self.step(at, time) {
                Some(next) => at = next,
                None => return false,
            }
        }
        at == above
    }
}
