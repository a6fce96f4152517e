//! Planning for a ground task: a certificate of a policy or of unsolvability, or that more states are reachable than a
//! budget. A state without a rule is settled in stages (`find`): it lies in a layer, or earlier choices list it; a few
//! states are opened from it (fond_explicit); a source of hints (`Source` of fond_draft) is asked for a plan from it, whose
//! steps become rules if each is sure now (`seek`), or for layers around it, which are kept if they are sure (`lost`); and
//! so on with more of both. A walk along a cover in the making (`sketched`), or through all states that the rules reach
//! (`walk`), finds states in which no rule holds; if one is lost, a pair bars the action that led there. Whenever a walk
//! barred an action, all rules are made again beside the new pairs. Rules, pairs and layers are added to a draft
//! (fond_draft). Nothing rests on what the source says: more states than the budget are reachable only if opening them has
//! shown it.
#![tactic(auto)]

pub mod decide;
mod find;
mod limits;
pub mod lost;
mod planner;
mod seek;
mod sketched;
mod walk;
