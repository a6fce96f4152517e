//! Answers: a text that is to be written, and the ending once it is.

ghost use Rattle.fond_edge.specs.Faults.{Rose};
ghost use Rattle.fond_edge.specs.Written.{Appended, AppendedPart};
ghost use Rattle.fond_commands.specs.Replies.{line_reply, undecided_reply};
ghost use Rattle.std.specs.Prelude.{◌≡◌, ◌≤◌, IfOk, OnOk, OnErr};

use crate::body::Body;
use crate::status::Ending;
use fond_cert::text::CertText;
use fond_edge::send::WriteFault;
use fond_edge::sink::Sink;
use fond_text::fault::NoMemory;
use fond_text::text::Text;
use std::alloc::Global;
use std::marker::Model;

/// A text that is to be written, and the ending once it is. The text of a certificate is not held.
#[derive(Drop)]
pub struct Answer {
    body: Body,
    ending: Ending,
}

impl Model for Answer {
    ghost use Rattle.fond_commands.specs.Bodies.{body_text};
    ghost use Rattle.fond_commands.specs.Replies.{Reply};

    ghost Value = { Reply };

    ghost view = { λ a. record { text = body_text a.body; ending = a.ending } };
}

impl Answer {
    /// The answer of a text and an ending.
    pub fn new(text: Vec<u8>, ending: Ending) -> Answer
        ensures { result ≡ record { text = text.items; ending = ending } }
    {
        Answer {
            body: Body::Held(text),
            ending,
        }
    }

    /// The answer of a certificate and an ending.
    pub fn of_cert(text: CertText, ending: Ending) -> Answer
        ensures { result ≡ record { text = text; ending = ending } }
    {
        Answer {
            body: Body::Printed(text),
            ending,
        }
    }

    /// Writes the text, or fails after a proper prefix of it. It takes no memory.
    pub fn send<K: Sink>(&self, sink: &mut K) -> Result<(), WriteFault>
        ensures ok { OnOk result (Appended (K.written sink.old) (K.written sink.new) self.now.text) }
        ensures part { OnErr result (AppendedPart (K.written sink.old) (K.written sink.new) self.now.text) }
        ensures counted { K.faults sink.old ≤ K.faults sink.new }
        ensures rose { OnErr result (Rose (K.faults sink.old) (K.faults sink.new)) }
    {
        self.body.send(sink)
    }

    /// The text in memory.
    pub fn into_text(self, alloc: Global) -> Result<Vec<u8>, NoMemory>
        ensures { IfOk result (λ text. text.items ≡ self.text) }
    {
        self.body.into_text(alloc)
    }

    /// The ending.
    pub fn ending(&self) -> Ending
        ensures { result ≡ self.now.ending }
    {
        self.ending
    }
}

/// The answer of one line.
pub fn line(alloc: Global, words: &[u8], ending: Ending) -> Result<Answer, NoMemory>
    ensures { IfOk result (λ answer. answer ≡ line_reply words.now ending) }
{
    let mut text = Vec::from_slice(alloc, words)?;
    text.push(b'\n')?;
    Ok(Answer::new(text, ending))
}

/// The answer that more states are reachable than a number.
pub fn undecided(alloc: Global, number: u32) -> Result<Answer, NoMemory>
    ensures { IfOk result (λ answer. answer ≡ undecided_reply number) }
{
    let mut text = Text::new(alloc);
    text.add(b"undecided ");
    text.add_number(number as u64);
    let words = text.finish()?;
    line(alloc, &words, Ending::Undecided)
}
