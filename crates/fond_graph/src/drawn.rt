//! What is drawn of the states that rules reach.

/// The graph of the states that rules reach.
#[derive(Drop)]
pub enum Drawn {
    /// Its text.
    Text(Vec<u8>),
    /// More states are reached than the limit.
    Spent,
}
