//! From the texts of a domain, a problem and a side list to their task. `read_task` gives a task only if the texts have
//! no fault, and otherwise reports their first fault, unless memory runs out. Grounding the task is left to the layers
//! above.
#![tactic(auto)]

mod declare;
mod parse;
pub mod task;
pub mod texts;
