//! A sink and a pen as one destination of text.

use crate::pen::Pen;
use crate::sink::Sink;
use fond_text::out::Out;

/// A sink that is written through a pen, which remembers a failure.
#[derive(Drop)]
pub struct Writer<'a, K> {
    pub pen: &'a mut Pen,
    pub sink: &'a mut K,
}

impl<'a, K: Sink> Out for Writer<'a, K> {
    ghost use Rattle.fond_edge.specs.Pens.{flow, Writes};
    ghost use Rattle.fond_edge.specs.WriterLaws.{writes_nothing, writes_then, writes_failed};

    ghost adds = { λ before after. Writes before.pen.ghost_name after.pen.ghost_name before.sink.ghost_name after.sink.ghost_name
        (flow (K.written before.sink.now) (K.faults before.sink.now) before.pen.now)
        (flow (K.written after.sink.now) (K.faults after.sink.now) after.pen.now) };

    ghost failed = { λ now. now.pen.now.failed };

    ghost adds_nothing = { λ now. writes_nothing _ _ _ };

    ghost adds_then = { λ before now after text more. writes_then };

    ghost adds_failed = { λ now text. writes_failed _ _ _ text };

    fn add(&mut self, part: &[u8]) {
        self.pen.add(self.sink, part);
    }

    fn has_failed(&self) -> bool {
        self.pen.has_failed()
    }
}
