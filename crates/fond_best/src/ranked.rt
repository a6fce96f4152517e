//! Whether the ranks of items are right.

ghost use Rattle.fond_best.specs.Certificates.{IsNearer, IsRankedRule, IsRankedWay, AreRanked};
ghost use Rattle.fond_best.specs.Ratings.{IsFirstBadRank};
ghost use Rattle.fond_policy.specs.Belongs.{BelongsAsBest};
ghost use Rattle.std.specs.Prelude.{◌≡◌, ℕ, Contains, length, Decides, MatchOption};

use fond_policy::best::{BestCert, Ranks};
use fond_policy::item::{ItemNumbers, Way};
use fond_policy::items::Items;
use fond_task::task::Task;

/// Whether the item of this number exists, and is a goal item or has a rank below the bound.
fn is_nearer(items: &Items, ranks: &Ranks, bound: u64, number: u32) -> bool
    requires { length ranks.now ≡ length items.now }
    ensures { Decides result (IsNearer items.now ranks.now bound number) }
{
    if number >= items.len() {
        return false;
    }
    match &items.get(number).way {
        Way::Goal => true,
        Way::Rule { .. } => *ranks.get(number as usize) < bound,
    }
}

/// Whether some of these items is nearer than the bound.
fn is_some_nearer(items: &Items, ranks: &Ranks, bound: u64, numbers: &ItemNumbers) -> bool
    requires { length ranks.now ≡ length items.now }
    ensures { Decides result ((other : ℕ) × Contains numbers.now other × IsNearer items.now ranks.now bound other) }
{
    for number in numbers.as_slice() {
        if is_nearer(items, ranks, bound, *number) {
            return true;
        }
    }
    false
}

/// Whether each of these items is nearer than the bound.
fn is_each_nearer(items: &Items, ranks: &Ranks, bound: u64, numbers: &ItemNumbers) -> bool
    requires { length ranks.now ≡ length items.now }
    ensures { Decides result ((other : ℕ) → Contains numbers.now other → IsNearer items.now ranks.now bound other) }
{
    for number in numbers.as_slice() {
        if !is_nearer(items, ranks, bound, *number) {
            return false;
        }
    }
    true
}

/// Whether an item that goes on by the rule to these items has the rank.
fn is_ranked_rule(t: &Task, cert: &BestCert, rank: u64, rule: u32, numbers: &ItemNumbers) -> bool
    requires { BelongsAsBest t.now cert.now }
    ensures { Decides result (IsRankedRule t.now cert.now.rules cert.now.items cert.now.ranks rank rule numbers.now) }
{
    if rank == 0 || rule >= cert.rules.len() {
        return false;
    }
    let act = t.acts.get(cert.rules.get(rule).act as usize);
    if act.unfair {
        return is_each_nearer(&cert.items, &cert.ranks, rank, numbers);
    }
    is_some_nearer(&cert.items, &cert.ranks, rank, numbers)
}

/// Whether an item with this way has the rank.
fn is_ranked_way(t: &Task, cert: &BestCert, rank: u64, way: &Way) -> bool
    requires { BelongsAsBest t.now cert.now }
    ensures { Decides result (IsRankedWay t.now cert.now.rules cert.now.items cert.now.ranks rank way.now) }
{
    match way {
        Way::Goal => true,
        Way::Rule { rule, items } => is_ranked_rule(t, cert, rank, *rule, items),
    }
}

/// The number of the first item whose rank is not right. Takes time in the number of all outcomes of the items.
pub(crate) fn first_bad_rank(t: &Task, cert: &BestCert) -> Option<u32>
    requires { BelongsAsBest t.now cert.now }
    ensures { MatchOption result (AreRanked t.now cert.now.rules cert.now.items cert.now.ranks) (IsFirstBadRank t.now cert.now.rules cert.now.items cert.now.ranks) }
{
    for at in 0..cert.items.len() {
        let rank = *cert.ranks.get(at as usize);
        if !is_ranked_way(t, cert, rank, &cert.items.get(at).way) {
            return Some(at);
        }
    }
    None
}
