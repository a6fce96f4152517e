//! Texts that are written part by part.

ghost use Rattle.fond_text.specs.Text.{Adds};
ghost use Rattle.std.specs.Fmt.{decimal};
ghost use Rattle.std.specs.Prelude.{◌≡◌, [], None, Some, IfOk, OnErr};

use crate::fault::NoMemory;
use crate::out::{Out, put_number};
use std::alloc::Global;
use std::marker::Model;

/// A text that is written part by part. If memory runs out, the text is lost: nothing is added to it any more, and `finish`
/// tells, so that what adds the parts need not. Contracts see the text so far, or `None` if it is lost.
#[derive(Drop)]
pub struct Text {
    bytes: Option<Vec<u8>>,
}

impl Model for Text {
    ghost use Rattle.std.specs.Prelude.{ℕ, List, Option, option_map};

    ghost Value = { Option (List ℕ) };

    ghost view = { λ t. option_map (λ bytes. bytes.items) t.bytes };
}

impl Text {
    /// A text without parts. It takes no memory until a part is added.
    pub fn new(alloc: Global) -> Text
        ensures { result ≡ Some [] }
    {
        Text {
            bytes: Some(Vec::new(alloc)),
        }
    }

    /// Adds bytes at the end.
    pub fn add(&mut self, part: &[u8])
        ensures { Adds self.old self.new part.now }
    {
        if let Some(bytes) = &mut self.bytes {
            if bytes.extend_from_slice(part).is_err() {
                self.bytes = None;
            }
        }
    }

    /// Adds the digits of a number at the end.
    pub fn add_number(&mut self, number: u64)
        ensures { Adds self.old self.new (decimal number) }
    {
        put_number(number, self);
    }

    /// The bytes of the text, unless it is lost.
    pub fn finish(self) -> Result<Vec<u8>, NoMemory>
        ensures ok { IfOk result (λ bytes. self ≡ Some bytes.items) }
        ensures err { OnErr result (self ≡ None) }
    {
        self.bytes.ok_or(NoMemory)
    }
}

impl Out for Text {
    ghost use Rattle.std.specs.Option.{is_none};
    ghost use Rattle.fond_text.specs.Text.{Adds};
    ghost use Rattle.fond_text.specs.TextLaws.{adds_nothing, adds_then, adds_failed};

    ghost adds = { Adds };

    ghost failed = { is_none };

    ghost adds_nothing = { adds_nothing };

    ghost adds_then = { adds_then };

    ghost adds_failed = { adds_failed };

    fn add(&mut self, part: &[u8]) {
        self.add(part);
    }

    fn has_failed(&self) -> bool {
        self.bytes.is_none()
    }
}
