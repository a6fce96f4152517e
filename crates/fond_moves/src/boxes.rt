//! Values in boxes. The time that the proof of a body takes grows with the fields of the values that it owns, so a value of many
//! fields is put into a box by what makes it.

use fond_text::fault::NoMemory;
use std::alloc::Global;

/// A value in a box.
pub fn boxed<T: Drop>(alloc: Global, value: T) -> Result<Box<T>, NoMemory> {
    Ok(Box::new(alloc, value)?)
}
