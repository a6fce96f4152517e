//! Ground atoms and ground actions, by the numbers of their parts.

use crate::list::List;

/// The numbers of some objects, in order.
pub type Objects = List<u32>;

/// A predicate with the objects of its arguments.
#[derive(Drop)]
pub struct Atom {
    pub predicate: u32,
    pub objects: Objects,
}

/// A schema with the objects of its parameters.
#[derive(Drop)]
pub struct GroundAction {
    pub schema: u32,
    pub objects: Objects,
}

/// Ground atoms, in order.
pub type Atoms = List<Atom>;
