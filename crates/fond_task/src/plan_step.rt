//! Steps of a plan.

use fond_text::list::List;

/// A step of a plan: an action, and the outcome of it that the plan counts on.
#[derive(Clone, Copy)]
pub struct PlanStep {
    pub act: u32,
    pub outcome: u32,
}

/// Steps, in order.
pub type PlanSteps = List<PlanStep>;
