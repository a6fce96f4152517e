//! Lists of lists, each found by a number.

use fond_text::fault::NoMemory;
use std::alloc::Global;

/// Empty lists, this many.
pub fn empty_lists(alloc: Global, count: u32) -> Result<Vec<Vec<u32>>, NoMemory> {
    let mut lists = Vec::new(alloc);
    for _ in 0..count {
        lists.push(Vec::new(alloc))?;
    }
    Ok(lists)
}
