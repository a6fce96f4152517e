//! Numbers renamed in the order of their first use.

ghost use Rattle.fond_lasso.specs.Ordered.{AreNamed, AreRenamed, IsNamed, IsNaming};
ghost use Rattle.std.specs.Prelude.{◌≡◌, ◌<◌, ◌^◌, All, length, IfOk, OnOk};

use fond_text::fault::NoMemory;
use std::alloc::Global;

/// The numbers that a stem and a cycle use, in the order of their first use, and the two with each number replaced by its place there.
#[derive(Drop)]
pub struct Renamed {
    pub used: Vec<u32>,
    pub stem: Vec<u32>,
    pub cycle: Vec<u32>,
}

/// The numbers that are used so far, and for each number one more than its place among them, or 0.
#[derive(Drop)]
struct Naming {
    table: Vec<u32>,
    used: Vec<u32>,
}

impl Naming {
    /// The name of a number, which is the next one at its first use.
    fn name(&mut self, number: u32) -> Result<u32, NoMemory>
        requires few { length self.old.table.items < 2 ^ 31 }
        requires there { number < length self.old.table.items }
        requires naming { IsNaming self.old.table.items self.old.used.items }
        ensures long { length self.new.table.items ≡ length self.old.table.items }
        ensures naming { OnOk result (IsNaming self.new.table.items self.new.used.items) }
        ensures named { IfOk result (λ name. IsNamed self.old.used.items number name self.new.used.items) }
    {
        let entry = self.table[number as usize];
        if entry > 0 {
            return Ok(entry - 1);
        }
        let name = self.used.len() as u32;
        self.used.push(number)?;
        self.table[number as usize] = name + 1;
        Ok(name)
    }

    /// The names of numbers.
    fn names(&mut self, alloc: Global, numbers: &[u32]) -> Result<Vec<u32>, NoMemory>
        requires few { length self.old.table.items < 2 ^ 31 }
        requires there { All (λ number. number < length self.old.table.items) numbers.now }
        requires naming { IsNaming self.old.table.items self.old.used.items }
        ensures long { length self.new.table.items ≡ length self.old.table.items }
        ensures naming { OnOk result (IsNaming self.new.table.items self.new.used.items) }
        ensures named { IfOk result (λ names. AreNamed self.old.used.items numbers.now names.items self.new.used.items) }
    {
        let mut names = Vec::with_capacity(alloc, numbers.len())?;
        for number in numbers {
            names.push(self.name(*number)?)?;
        }
        Ok(names)
    }
}

/// The numbers of a stem and a cycle, renamed. Takes time in their lengths and in the count of numbers, and memory for as many numbers.
pub fn rename(alloc: Global, count: usize, stem: &[u32], cycle: &[u32]) -> Result<Renamed, NoMemory>
    requires few { count < 2 ^ 31 }
    requires stem { All (λ number. number < count) stem.now }
    requires cycle { All (λ number. number < count) cycle.now }
    ensures { IfOk result (λ r. AreRenamed count stem.now cycle.now r.used.items r.stem.items r.cycle.items) }
{
    let mut naming = Naming {
        table: vec![in alloc; 0; count]?,
        used: Vec::new(alloc),
    };
    let stem = naming.names(alloc, stem)?;
    let cycle = naming.names(alloc, cycle)?;
    Ok(Renamed {
        used: naming.used,
        stem,
        cycle,
    })
}
