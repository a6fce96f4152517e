//! The parts of a text that were read so far.

use crate::ranked::RankedItems;
use fond_layers::layers::{Layer, Layers};
use fond_policy::items::Items;
use fond_rules::pairs::Pairs;
use fond_rules::rules::Rules;
use fond_rules::table::Table;

/// The layers, pairs, rules, items and far lists that were read so far, and the reach number or the start number; or the rows of a
/// table. The layer or the far list whose cubes are being read is kept apart until another line follows them.
#[derive(Drop)]
pub struct Draft {
    pub layers: Layers,
    pub current: Option<Layer>,
    pub pairs: Pairs,
    pub rules: Rules,
    pub items: Items,
    pub reach: Option<u64>,
    pub start: Option<u32>,
    pub rows: Table,
    pub ranked: RankedItems,
    pub far: Layers,
    pub current_far: Option<Layer>,
}
