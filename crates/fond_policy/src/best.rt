//! Certificates of a policy of least rank.

use crate::items::Items;
use fond_layers::layers::Layers;
use fond_rules::rules::Rules;
use fond_text::list::List;

/// The ranks of items, one for each.
pub type Ranks = List<u64>;

/// A certificate of a policy of least rank: layers of losing cubes; ordered rules; items that cover the states that the rules reach,
/// with the number of the item in which the initial state lies; the rank of each item, which is 0 for a goal item; and lists of
/// cubes, numbered from 0: from the states of a list, each solution needs at least one lucky step more than its number. Whether a
/// certificate is correct is left to the checker.
#[derive(Drop)]
pub struct BestCert {
    pub layers: Layers,
    pub rules: Rules,
    pub items: Items,
    pub ranks: Ranks,
    pub start: u32,
    pub far: Layers,
}
