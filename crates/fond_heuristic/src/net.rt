//! The relaxation of a task: operators over facts that only ever become true.
//!
//! A fact is a literal that some condition of the task needs, positive or negative, or the goal. An operator stands for a way
//! to meet an action's precondition, and for that of one entry if the entry has a condition; it gives a fact for each
//! literal of an outcome. Of an unfair action, what every outcome gives is sure, and the rest is only hoped for.

use crate::dnf::{Dnf, Literals, both, contains, dnf_of};
use fond_moves::boxes::boxed;
use fond_moves::condition::Mask;
use fond_moves::effect::{Effect, is_plain};
use fond_moves::index::{Literal, NONE, bit_of, link_at, put, size};
use fond_moves::moves::{Move, Moves};
use fond_task::form::Form;
use fond_task::task::{Act, Entry, Task};
use fond_text::fault::NoMemory;
use std::alloc::Global;

/// How many gifts of an operator are looked through for one of the same fact.
const LAST_GIFTS: usize = 64;

/// What an operator still waits for: how many facts, and the cost of those that it has.
#[derive(Clone, Copy)]
pub struct Counter {
    pub left: u32,
    pub sum: u32,
}

/// An operator: how many facts it needs, which it gives, as a range, and what it costs.
#[derive(Clone, Copy)]
pub struct Operator {
    pub needs: u32,
    pub first_need: u32,
    pub first_gift: u32,
    pub end_gift: u32,
    pub price: u32,
    pub hopeful: bool,
}

/// A fact that an operator gives, by a step.
#[derive(Clone, Copy)]
pub struct Gift {
    pub fact: u32,
    pub operator: u32,
    pub step: u32,
}

/// Facts and operators.
#[derive(Drop)]
pub struct Net {
    /// The literal of each fact but the goal.
    pub literals: Literals,
    /// The fact of each literal: two for each atom, the negative literal first.
    numbers: Vec<u32>,
    pub operators: Vec<Operator>,
    /// What the operators wait for at first, if hopes count and if they do not.
    pub hoped: Vec<Counter>,
    pub sure: Vec<Counter>,
    pub needs: Vec<u32>,
    pub gifts: Vec<Gift>,
    /// The fact of each gift once more, which are all that is read most often.
    pub given: Vec<u32>,
    /// The first operator of each action, and the end.
    firsts: Vec<u32>,
    /// The operators that need each fact.
    pub users: Vec<Vec<u32>>,
    /// The operators that need none.
    pub free: Vec<u32>,
    /// Some operator is only hoped for.
    pub has_hopeful: bool,
    /// The first operator that gives the goal, and the end of those of the task. Those of aims come after it.
    first_goal: u32,
    end_goal: u32,
}

/// The place of a literal among all.
fn place(literal: Literal) -> u32 {
    literal
        .atom
        .saturating_mul(2)
        .saturating_add(literal.sign as u32)
}

/// Marks the literals of a condition.
fn mark(form: &Form, marks: &mut [u32]) {
    match form {
        Form::Truth(_) => {}
        Form::Lit(atom, sign) => put(
            marks,
            place(Literal {
                atom: *atom,
                sign: *sign,
            }),
            0,
        ),
        Form::And(parts) | Form::Or(parts) => {
            for part in parts {
                mark(part, marks);
            }
        }
    }
}

/// Marks the literals of an action's conditions.
fn mark_act(act: &Act, marks: &mut [u32]) {
    mark(&act.pre, marks);
    for outcome in act.outcomes.as_slice() {
        for entry in outcome {
            mark(&entry.cond, marks);
        }
    }
}

/// Marks the literals of a task's conditions, among all literals over this many atoms.
fn marks_of(alloc: Global, task: &Task, atoms: u32) -> Result<Vec<u32>, NoMemory> {
    let mut marks = vec![in alloc; NONE; (atoms as usize).saturating_mul(2)]?;
    mark(&task.goal, &mut marks);
    for act in &task.acts {
        mark_act(act, &mut marks);
    }
    Ok(marks)
}

/// The literal that an entry gives.
fn literal_of(entry: &Entry) -> Literal {
    Literal {
        atom: entry.atom,
        sign: entry.add,
    }
}

/// Whether all effects give the literal.
fn all_give(effects: &[Effect], literal: Literal) -> bool {
    for effect in effects {
        if !effect.gives(literal) {
            return false;
        }
    }
    true
}

/// An action as a net is built.
#[derive(Clone, Copy)]
struct Source<'a> {
    act: &'a Act,
    one: &'a Move,
    pre: &'a Dnf,
}

impl Net {
    /// The fact of a literal, or `NONE`.
    fn fact(&self, literal: Literal) -> u32 {
        link_at(&self.numbers, place(literal))
    }

    /// The fact that stands for the goal.
    pub fn goal(&self) -> u32 {
        size(self.literals.len())
    }

    /// Numbers the marked literals.
    fn number(&mut self, atoms: u32) -> Result<(), NoMemory> {
        for atom in 0..atoms {
            for sign in [false, true] {
                let literal = Literal { atom, sign };
                if self.fact(literal) != NONE {
                    put(&mut self.numbers, place(literal), size(self.literals.len()));
                    self.literals.push(literal)?;
                }
            }
        }
        Ok(())
    }

    /// Numbers the marked literals, which are all facts but the goal. Nothing uses a fact yet.
    fn begin(&mut self, alloc: Global, atoms: u32) -> Result<(), NoMemory> {
        self.number(atoms)?;
        for _ in 0..self.goal().saturating_add(1) {
            self.users.push(Vec::new(alloc))?;
        }
        Ok(())
    }

    /// A net without facts, over literals of which some are marked.
    fn over(alloc: Global, marks: Vec<u32>) -> Net {
        Net {
            literals: Vec::new(alloc),
            numbers: marks,
            operators: Vec::new(alloc),
            hoped: Vec::new(alloc),
            sure: Vec::new(alloc),
            needs: Vec::new(alloc),
            gifts: Vec::new(alloc),
            given: Vec::new(alloc),
            firsts: Vec::new(alloc),
            users: Vec::new(alloc),
            free: Vec::new(alloc),
            has_hopeful: false,
            first_goal: 0,
            end_goal: 0,
        }
    }

    /// Whether one of the last gifts gives a fact by the operator that is being made.
    fn is_given(&self, fact: u32, operator: u32) -> bool {
        for back in 1..LAST_GIFTS {
            let Some(gift) = self.gifts.get(self.gifts.len().saturating_sub(back)) else {
                return false;
            };
            if gift.operator != operator {
                return false;
            }
            if gift.fact == fact {
                return true;
            }
        }
        false
    }

    /// Adds the gift of a literal to the operator that is being made, unless nothing needs the literal, or the operator
    /// needs it itself or gives it already.
    fn give(&mut self, needs: &[Literal], literal: Literal, step: u32) -> Result<(), NoMemory> {
        let fact = self.fact(literal);
        if fact == NONE || contains(needs, literal) {
            return Ok(());
        }
        let operator = size(self.operators.len());
        if self.is_given(fact, operator) {
            return Ok(());
        }
        self.given.push(fact)?;
        self.gifts.push(Gift {
            fact,
            operator,
            step,
        })?;
        Ok(())
    }

    /// The operator uses the facts of its needs.
    fn use_all(&mut self, needs: &[Literal], operator: u32) -> Result<(), NoMemory> {
        if needs.is_empty() {
            self.free.push(operator)?;
        }
        for literal in needs {
            let fact = self.fact(*literal);
            self.needs.push(fact)?;
            if let Some(users) = self.users.get_mut(fact as usize) {
                users.push(operator)?;
            }
        }
        Ok(())
    }

    /// Makes an operator of the gifts from a place on, if there are any.
    fn close(
        &mut self,
        needs: &[Literal],
        first_gift: u32,
        price: u32,
        hopeful: bool,
    ) -> Result<(), NoMemory> {
        let end_gift = size(self.gifts.len());
        if first_gift == end_gift {
            return Ok(());
        }
        let number = size(self.operators.len());
        let first_need = size(self.needs.len());
        self.use_all(needs, number)?;
        self.has_hopeful |= hopeful;
        let left = size(needs.len());
        self.hoped.push(Counter { left, sum: 0 })?;
        self.sure.push(Counter {
            left: if hopeful { NONE } else { left },
            sum: 0,
        })?;
        self.operators.push(Operator {
            needs: left,
            first_need,
            first_gift,
            end_gift,
            price,
            hopeful,
        })?;
        Ok(())
    }

    /// Adds what the outcomes of an action give without a condition: what all outcomes of an unfair action give if `sure`,
    /// and else what only some give.
    fn give_plain(
        &mut self,
        source: &Source<'_>,
        needs: &[Literal],
        sure: bool,
    ) -> Result<(), NoMemory> {
        let outcomes = source.act.outcomes.as_slice();
        for i in 0..outcomes.len() {
            let outcome = size(i);
            let step = source.one.first.saturating_add(outcome);
            for entry in &outcomes[i] {
                if self.is_due(source, entry, outcome, sure) {
                    self.give(needs, literal_of(entry), step)?;
                }
            }
        }
        Ok(())
    }

    /// Adds an operator of what `give_plain` adds.
    fn add_plain(
        &mut self,
        source: &Source<'_>,
        needs: &[Literal],
        sure: bool,
    ) -> Result<(), NoMemory> {
        let first = size(self.gifts.len());
        self.give_plain(source, needs, sure)?;
        self.close(needs, first, 1, !sure)
    }

    /// Whether the entry of an outcome is to be among the sure gifts, or among the others.
    fn is_due(&self, source: &Source<'_>, entry: &Entry, outcome: u32, sure: bool) -> bool {
        if !is_plain(entry) {
            return false;
        }
        let Some(effect) = source.one.effects.get(outcome as usize) else {
            return false;
        };
        let added = Literal {
            atom: entry.atom,
            sign: true,
        };
        if !entry.add && effect.gives(added) {
            return false;
        }
        if !source.one.unfair {
            return sure;
        }
        if all_give(source.one.effects.as_slice(), literal_of(entry)) {
            sure && outcome == 0
        } else {
            !sure
        }
    }

    /// Adds an operator for each condition of an entry, beside one way to meet the precondition.
    fn add_ways(
        &mut self,
        alloc: Global,
        source: &Source<'_>,
        pre: &[Literal],
        conditions: &Dnf,
        literal: Literal,
        step: u32,
    ) -> Result<(), NoMemory> {
        for condition in conditions {
            let needs = both(alloc, pre, condition)?;
            let first = size(self.gifts.len());
            self.give(&needs, literal, step)?;
            self.close(&needs, first, 1, source.one.unfair)?;
        }
        Ok(())
    }

    /// Adds the operators of an entry with a condition.
    fn add_entry(
        &mut self,
        alloc: Global,
        source: &Source<'_>,
        entry: &Entry,
        step: u32,
    ) -> Result<(), NoMemory> {
        let literal = literal_of(entry);
        if self.fact(literal) == NONE {
            return Ok(());
        }
        let conditions = dnf_of(alloc, &entry.cond)?;
        for pre in source.pre {
            self.add_ways(alloc, source, pre, &conditions, literal, step)?;
        }
        Ok(())
    }

    /// Adds the operators of all entries with a condition.
    fn add_entries(&mut self, alloc: Global, source: &Source<'_>) -> Result<(), NoMemory> {
        let outcomes = source.act.outcomes.as_slice();
        for i in 0..outcomes.len() {
            let step = source.one.first.saturating_add(size(i));
            for entry in &outcomes[i] {
                if !is_plain(entry) {
                    self.add_entry(alloc, source, entry, step)?;
                }
            }
        }
        Ok(())
    }

    /// Adds the operators of an action.
    fn add_act(&mut self, alloc: Global, act: &Act, one: &Move) -> Result<(), NoMemory> {
        let pre = dnf_of(alloc, &act.pre)?;
        let source = Source {
            act,
            one,
            pre: &pre,
        };
        for needs in &pre {
            self.add_plain(&source, needs, true)?;
            self.add_plain(&source, needs, false)?;
        }
        self.add_entries(alloc, &source)
    }

    /// Adds an operator without a price that gives the goal.
    fn add_way(&mut self, needs: &[Literal]) -> Result<(), NoMemory> {
        let goal = self.goal();
        let operator = size(self.operators.len());
        let first = size(self.gifts.len());
        self.given.push(goal)?;
        self.gifts.push(Gift {
            fact: goal,
            operator,
            step: NONE,
        })?;
        self.close(needs, first, 0, false)
    }

    /// Adds an operator for each way to meet the goal.
    fn add_goal(&mut self, alloc: Global, task: &Task) -> Result<(), NoMemory> {
        self.first_goal = size(self.operators.len());
        for needs in &dnf_of(alloc, &task.goal)? {
            self.add_way(needs)?;
        }
        self.end_goal = size(self.operators.len());
        Ok(())
    }

    /// Adds the operators of all actions.
    fn add_acts(&mut self, alloc: Global, task: &Task, moves: &Moves) -> Result<(), NoMemory> {
        let acts = task.acts.as_slice();
        let all = moves.acts.as_slice();
        for i in 0..acts.len().min(all.len()) {
            self.firsts.push(size(self.operators.len()))?;
            self.add_act(alloc, &acts[i], &all[i])?;
        }
        self.firsts.push(size(self.operators.len()))?;
        Ok(())
    }

    /// The net of a task.
    pub fn new(alloc: Global, task: &Task, moves: &Moves) -> Result<Box<Net>, NoMemory> {
        let marks = marks_of(alloc, task, moves.atoms)?;
        let mut net = boxed(alloc, Net::over(alloc, marks))?;
        net.begin(alloc, moves.atoms)?;
        net.add_acts(alloc, task, moves)?;
        net.add_goal(alloc, task)?;
        Ok(net)
    }

    /// Whether there is only one way to meet the goal or an aim.
    pub fn has_one_way(&self) -> bool {
        let end = size(self.operators.len());
        let first = if end > self.end_goal {
            self.end_goal
        } else {
            self.first_goal
        };
        end.saturating_sub(first) <= 1
    }

    /// Adds the literals of a mask to those that an aim needs, but for those that no condition of the task needs.
    fn add_mask(&self, mask: &Mask, needs: &mut Literals) -> Result<(), NoMemory> {
        let mut bits = mask.care;
        for _ in 0..64 {
            if bits == 0 {
                return Ok(());
            }
            let bit = bits.trailing_zeros();
            bits &= bits.wrapping_sub(1);
            let literal = Literal {
                atom: mask.word.saturating_mul(64).saturating_add(bit),
                sign: mask.value & bit_of(bit) != 0,
            };
            if self.fact(literal) != NONE {
                needs.push(literal)?;
            }
        }
        Ok(())
    }

    /// From now on, the goal is met in the states of the cube, and the task's own goal does not count. Literals that no
    /// condition of the task needs are left out. Returns false if none is left: then nothing changes.
    pub fn aim(&mut self, cube: &[Mask]) -> Result<bool, NoMemory> {
        let mut needs = Vec::new(*self.users.allocator());
        for mask in cube {
            self.add_mask(mask, &mut needs)?;
        }
        if needs.is_empty() {
            return Ok(false);
        }
        for operator in self.first_goal..self.end_goal {
            self.block(operator);
        }
        self.add_way(&needs)?;
        Ok(true)
    }

    /// Drops the last operator, which is that of an aim.
    fn drop_way(&mut self) {
        let Some(operator) = self.operators.pop() else {
            return;
        };
        for _ in 0..operator.needs {
            let fact = self.needs.pop().unwrap_or(NONE);
            if let Some(users) = self.users.get_mut(fact as usize) {
                let _ = users.pop();
            }
        }
        let _ = self.given.pop();
        let _ = self.gifts.pop();
        let _ = self.hoped.pop();
        let _ = self.sure.pop();
    }

    /// The operator waits for all that it needs.
    fn unblock(&mut self, number: u32) {
        let Some(operator) = self.operators.get(number as usize) else {
            return;
        };
        let left = operator.needs;
        if let Some(counter) = self.hoped.get_mut(number as usize) {
            counter.left = left;
        }
        if let Some(counter) = self.sure.get_mut(number as usize) {
            counter.left = left;
        }
    }

    /// Drops all aims: the task's own goal counts again.
    pub fn drop_aims(&mut self) {
        for _ in self.end_goal..size(self.operators.len()) {
            self.drop_way();
        }
        for operator in self.first_goal..self.end_goal {
            self.unblock(operator);
        }
    }

    /// The operators of an action, from the first on, and the end.
    fn range(&self, act: u32) -> (u32, u32) {
        let first = link_at(&self.firsts, act);
        let end = link_at(&self.firsts, act.saturating_add(1));
        (first, end.min(size(self.operators.len())))
    }

    /// The operator never has all that it needs.
    fn block(&mut self, operator: u32) {
        if let Some(counter) = self.hoped.get_mut(operator as usize) {
            counter.left = NONE;
        }
        if let Some(counter) = self.sure.get_mut(operator as usize) {
            counter.left = NONE;
        }
    }

    /// The action is never applied.
    pub fn close_act(&mut self, act: u32) {
        let (first, end) = self.range(act);
        for operator in first..end {
            self.block(operator);
        }
    }

    /// Whether the operator needs the fact, or gives it.
    fn has_part_in(&self, operator: &Operator, fact: u32) -> bool {
        for i in operator.first_gift..operator.end_gift {
            if let Some(gift) = self.gifts.get(i as usize) {
                if gift.fact == fact {
                    return true;
                }
            }
        }
        for i in 0..operator.needs {
            if link_at(&self.needs, operator.first_need.saturating_add(i)) == fact {
                return true;
            }
        }
        false
    }

    /// Moves the needs of the operator to the end of all, and adds one.
    fn move_needs(&mut self, operator: &Operator, fact: u32) -> Result<u32, NoMemory> {
        let first = size(self.needs.len());
        for i in 0..operator.needs {
            let need = link_at(&self.needs, operator.first_need.saturating_add(i));
            self.needs.push(need)?;
        }
        self.needs.push(fact)?;
        Ok(first)
    }

    /// The operator needs one more fact.
    fn need(&mut self, number: u32, fact: u32) -> Result<(), NoMemory> {
        let Some(operator) = self.operators.get(number as usize) else {
            return Ok(());
        };
        let before = *operator;
        if self.has_part_in(&before, fact) {
            return Ok(());
        }
        let first_need = self.move_needs(&before, fact)?;
        if let Some(operator) = self.operators.get_mut(number as usize) {
            operator.first_need = first_need;
            operator.needs = before.needs.saturating_add(1);
        }
        if let Some(users) = self.users.get_mut(fact as usize) {
            users.push(number)?;
        }
        if let Some(counter) = self.hoped.get_mut(number as usize) {
            counter.left = counter.left.saturating_add(1);
        }
        if let Some(counter) = self.sure.get_mut(number as usize) {
            counter.left = counter.left.saturating_add(1);
        }
        Ok(())
    }

    /// The action is only applied where the literal does not hold.
    pub fn strengthen(&mut self, act: u32, literal: Literal) -> Result<(), NoMemory> {
        let fact = self.fact(Literal {
            atom: literal.atom,
            sign: !literal.sign,
        });
        if fact == NONE {
            return Ok(());
        }
        let (first, end) = self.range(act);
        for operator in first..end {
            self.need(operator, fact)?;
        }
        Ok(())
    }
}
