//! Names: the leaves of a text with their letters lowered.

ghost use Rattle.std.specs.Prelude.{◌≡◌, ℕ, List, map, IfOk};
ghost use Rattle.fond_text.specs.Bytes.{lower};
ghost use Rattle.fond_text.specs.Name.{IsLeaf, IsName};

use crate::fault::NoMemory;
use crate::list::List;
use std::alloc::Global;
use std::marker::Model;

/// A leaf without the letters A to Z: at least one of the bytes 33 to 126, no parenthesis and no semicolon.
#[derive(Drop)]
pub struct Name {
    bytes: Vec<u8>,
}

impl Model for Name {
    ghost Value = { List ℕ };

    ghost view = { λ n. n.bytes.items };

    ghost invariant = { λ n. IsName n.bytes.items };
}

/// The byte with a letter A to Z lowered.
fn lowered(b: u8) -> u8
    ensures { result ≡ lower b }
{
    if b.is_ascii_uppercase() { b + 32 } else { b }
}

impl Name {
    /// The leaf with its letters lowered.
    pub fn lower(alloc: Global, b: &[u8]) -> Result<Name, NoMemory>
        requires { IsLeaf b.now }
        ensures { IfOk result (λ n. n ≡ map lower b.now) }
    {
        Ok(Name {
            bytes: b.iter().map(|x| lowered(*x)).collect(alloc)?,
        })
    }

    /// A copy of the name.
    pub fn copy(&self, alloc: Global) -> Result<Name, NoMemory>
        ensures copy { IfOk result (λ n. n ≡ self.now) }
        ensures name { IfOk result IsName }
    {
        Ok(Name {
            bytes: Vec::from_slice(alloc, self.bytes.as_slice())?,
        })
    }

    /// The bytes of the name.
    pub fn bytes(&self) -> &[u8]
        ensures value { result.now ≡ self.now }
        ensures name { IsName self.now }
    {
        self.bytes.as_slice()
    }
}

/// Names, in order.
pub type Names = List<Name>;
