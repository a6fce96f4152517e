//! A queue with a bucket for each estimate. The lowest estimate comes first, and among equals the oldest.

use fond_moves::index::{NONE, link_at, put, size};
use fond_text::fault::NoMemory;
use std::alloc::Global;

/// The most buckets.
const LEVELS: u32 = 1_000_000;

/// A step that may be taken in a state, by their numbers.
#[derive(Clone, Copy)]
pub(crate) struct Open {
    pub(crate) state: u32,
    pub(crate) step: u32,
}

/// A place of the queue, and the next one of its bucket, or of the free ones.
#[derive(Clone, Copy)]
struct Cell {
    open: Open,
    next: u32,
}

/// The queue. Each entry takes 12 bytes.
#[derive(Drop)]
pub(crate) struct Agenda {
    firsts: Vec<u32>,
    lasts: Vec<u32>,
    cells: Vec<Cell>,
    free: u32,
    lowest: u32,
    count: u32,
}

impl Agenda {
    /// An empty queue.
    pub(crate) fn new(alloc: Global) -> Agenda {
        Agenda {
            firsts: Vec::new(alloc),
            lasts: Vec::new(alloc),
            cells: Vec::new(alloc),
            free: NONE,
            lowest: 0,
            count: 0,
        }
    }

    /// Drops all entries.
    pub(crate) fn clear(&mut self) {
        self.firsts.clear();
        self.lasts.clear();
        self.cells.clear();
        self.free = NONE;
        self.lowest = 0;
        self.count = 0;
    }

    /// Whether there are no entries.
    pub(crate) fn is_empty(&self) -> bool {
        self.count == 0
    }

    /// The place after another one.
    fn next_of(&self, number: u32) -> u32 {
        match self.cells.get(number as usize) {
            Some(cell) => cell.next,
            None => NONE,
        }
    }

    /// A place for an entry.
    fn place(&mut self, open: Open) -> Result<u32, NoMemory> {
        let number = self.free;
        if number == NONE {
            let fresh = size(self.cells.len());
            self.cells.push(Cell { open, next: NONE })?;
            return Ok(fresh);
        }
        self.free = self.next_of(number);
        if let Some(cell) = self.cells.get_mut(number as usize) {
            *cell = Cell { open, next: NONE };
        }
        Ok(number)
    }

    /// Makes buckets up to a level.
    fn grow(&mut self, level: u32) -> Result<(), NoMemory> {
        for _ in self.firsts.len()..(level as usize).saturating_add(1) {
            self.firsts.push(NONE)?;
            self.lasts.push(NONE)?;
        }
        Ok(())
    }

    /// Adds an entry with an estimate.
    pub(crate) fn push(&mut self, estimate: u32, open: Open) -> Result<(), NoMemory> {
        let level = estimate.min(LEVELS - 1);
        self.grow(level)?;
        let number = self.place(open)?;
        let last = link_at(&self.lasts, level);
        if let Some(cell) = self.cells.get_mut(last as usize) {
            cell.next = number;
        } else {
            put(&mut self.firsts, level, number);
        }
        put(&mut self.lasts, level, number);
        self.lowest = self.lowest.min(level);
        self.count = self.count.saturating_add(1);
        Ok(())
    }

    /// Takes the entry at a place, the first of its bucket.
    fn take(&mut self, level: u32, number: u32) -> Option<Open> {
        let cell = self.cells.get_mut(number as usize)?;
        let open = cell.open;
        let next = cell.next;
        cell.next = self.free;
        self.free = number;
        put(&mut self.firsts, level, next);
        if next == NONE {
            put(&mut self.lasts, level, NONE);
        }
        self.lowest = level;
        self.count = self.count.saturating_sub(1);
        Some(open)
    }

    /// Takes the first entry.
    pub(crate) fn pop(&mut self) -> Option<Open> {
        for level in self.lowest..size(self.firsts.len()) {
            let number = link_at(&self.firsts, level);
            if number != NONE {
                return self.take(level, number);
            }
        }
        None
    }
}
