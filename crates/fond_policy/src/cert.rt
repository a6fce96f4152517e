//! Certificates.

use crate::items::Items;
use fond_layers::layers::Layers;
use fond_rules::pairs::Pairs;
use fond_rules::rules::Rules;

/// A policy as layers of losing cubes, forbidden pairs and ordered rules, with the number of states that the rules reach, or
/// with items that cover these states and the number of the item in which the initial state lies; or a refusal as layers of
/// losing cubes. Whether a certificate is correct is left to the checker.
#[derive(Drop)]
pub enum Cert {
    Policy {
        layers: Layers,
        pairs: Pairs,
        rules: Rules,
        reach: u64,
    },
    Refusal {
        layers: Layers,
    },
    Covered {
        layers: Layers,
        pairs: Pairs,
        rules: Rules,
        items: Items,
        start: u32,
    },
}
