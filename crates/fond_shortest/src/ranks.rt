//! The ranks of the items of a cover.

use fond_draft::order::Place;
use fond_policy::best::Ranks;
use fond_policy::item::Way;
use fond_policy::items::Items;
use fond_rules::rules::Rules;
use fond_task::task::Task;
use fond_text::fault::NoMemory;
use std::alloc::Global;

/// The items, those of earlier rules first.
fn in_order(alloc: Global, items: &Items) -> Result<Vec<Place>, NoMemory> {
    let mut places = Vec::new(alloc);
    for number in 0..items.len() {
        let rank = match &items.get(number).way {
            Way::Goal => 0,
            Way::Rule { rule, .. } => u64::from(*rule) + 1,
        };
        let number = number as usize;
        places.push(Place { rank, number })?;
    }
    places.sort_by_key(|place| place.rank)?;
    Ok(places)
}

/// The rank of an item, if it has one.
fn rank_at(ranks: &[u64], number: u32) -> u64 {
    match ranks.get(number as usize) {
        Some(rank) => *rank,
        None => u64::MAX,
    }
}

/// Whether an opponent picks the outcome of a rule's action.
fn is_unfair(t: &Task, rules: &Rules, rule: u32) -> bool {
    if rule >= rules.len() {
        return false;
    }
    match t.acts.as_slice().get(rules.get(rule).act as usize) {
        Some(act) => act.unfair,
        None => false,
    }
}

/// The rank of an item with this way: 0 at goals; one more than the least rank of the items to which it leads, or than the greatest if an
/// opponent picks.
fn rank_of(t: &Task, rules: &Rules, ranks: &[u64], way: &Way) -> u64 {
    let Way::Rule { rule, items } = way else {
        return 0;
    };
    let mut least = u64::MAX;
    let mut most = 0;
    for number in items.as_slice() {
        let rank = rank_at(ranks, *number);
        least = least.min(rank);
        most = most.max(rank);
    }
    let bound = if is_unfair(t, rules, *rule) {
        most
    } else {
        least
    };
    bound.saturating_add(1)
}

/// The ranks of items: in the order of their rules, each by those before it. A rule's targets are earlier rules, and an item of a later
/// rule counts as one without a rank. Takes time in the number of items and of their outcomes.
pub(crate) fn ranks_of(
    alloc: Global,
    t: &Task,
    rules: &Rules,
    items: &Items,
) -> Result<Ranks, NoMemory> {
    let mut ranks = vec![in alloc; u64::MAX; items.len() as usize]?;
    for place in &in_order(alloc, items)? {
        if place.number >= items.len() as usize {
            continue;
        }
        let rank = rank_of(t, rules, &ranks, &items.get(place.number as u32).way);
        if let Some(slot) = ranks.get_mut(place.number) {
            *slot = rank;
        }
    }
    let mut list = Ranks::new(alloc);
    for rank in &ranks {
        list.push(*rank)?;
    }
    Ok(list)
}
