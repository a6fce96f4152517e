//! The one call of the program.

ghost use Rattle.fond_tool.specs.Jobs.{JobReply};
ghost use Rattle.fond_tool.specs.Ends.{ToolReply, Ends};
ghost use Rattle.fond_commands.specs.Fetches.{Reads};
ghost use Rattle.fond_commands.specs.Words.{AskForNone, Say, command_of, file_count};
ghost use Rattle.std.specs.Prelude.{◌≡◌, ◌≤◌, ℕ, List, length, IfOk};

use crate::jobs::do_job;
use fond_commands::answer::{Answer, line};
use fond_commands::fetch::{Content, fetch_all};
use fond_commands::rejection::answer_to;
use fond_commands::status::{Ending, Status};
use fond_commands::words::{Job, read_words};
use fond_edge::shelf::{FetchFault, Shelf};
use fond_edge::sink::Sink;
use fond_text::fault::NoMemory;
use fond_text::word::Word;
use std::alloc::Global;

/// The answer of a job, or the answer to its rejection.
fn job_answer(alloc: Global, job: Job, contents: &[Content]) -> Result<Answer, NoMemory>
    requires said { (rest : List (List ℕ)) × Say rest job }
    requires count { length contents.now ≡ file_count (command_of job) }
    ensures { IfOk result (JobReply job contents.now) }
{
    match do_job(alloc, job, contents) {
        Ok(answer) => Ok(answer),
        Err(rejection) => answer_to(alloc, rejection),
    }
}

/// The answer to the words of a command line.
fn answer<S: Shelf>(alloc: Global, words: &[Word], shelf: &mut S) -> Result<Answer, NoMemory>
    ensures answered { IfOk result (ToolReply words.now (record { held = S.held shelf.old; before = S.faults shelf.old; after = S.faults shelf.new })) }
    ensures unfetched { AskForNone words.now → shelf.new ≡ shelf.old }
    ensures kept { S.held shelf.new ≡ S.held shelf.old }
    ensures counted { S.faults shelf.old ≤ S.faults shelf.new }
{
    let Some(asked) = read_words(alloc, words)? else {
        return line(alloc, b"bad words", Ending::BadWords);
    };
    match fetch_all(alloc, shelf, asked.names) {
        Ok(contents) => job_answer(alloc, asked.job, contents.as_slice()),
        Err(FetchFault::Failed) => line(alloc, b"read fault", Ending::ReadFault),
        Err(FetchFault::NoMemory) => Err(NoMemory),
    }
}

/// Writes an answer to the sink, and returns how that ended.
fn send_answer<K: Sink>(answer: &Answer, sink: &mut K) -> Status
    ensures ends { (words : List (List ℕ)) (reads : Reads) → ToolReply words reads answer.now
        → Ends words reads (record { old = K.written sink.old; new = K.written sink.new; before = K.faults sink.old; after = K.faults sink.new }) result }
    ensures took_no_memory { ¬ result ≡ Status.NoMemory }
    ensures counted { K.faults sink.old ≤ K.faults sink.new }
{
    match answer.send(sink) {
        Ok(()) => answer.ending().status(),
        Err(_) => Status::WriteFault,
    }
}

/// Does what the words ask, writes the answer to the sink, and returns how it ended. docs/COMMANDS.md lists the words,
/// the texts and the statuses.
///
/// The order of work: the words, then the files in the order of the words, then their faults, then the certificate, the
/// script or the action, then the job. All memory is taken before the first byte is written.
pub fn run_tool<S: Shelf, K: Sink>(
    alloc: Global,
    words: &[Word],
    shelf: &mut S,
    sink: &mut K,
) -> Status
    // The text that is written and the status are those of a reply to the words, from the contents of the files that they
    // name, unless memory runs out or the sink has a fault.
    ensures ends { Ends words.now
        (record { held = S.held shelf.old; before = S.faults shelf.old; after = S.faults shelf.new })
        (record { old = K.written sink.old; new = K.written sink.new; before = K.faults sink.old; after = K.faults sink.new })
        result }

    // The shelf stays as it is if the words ask for no job, and the sink if memory ran out.
    ensures unfetched { AskForNone words.now → shelf.new ≡ shelf.old }
    ensures unwritten { result ≡ Status.NoMemory → sink.new ≡ sink.old }

    ensures kept { S.held shelf.new ≡ S.held shelf.old }
    ensures shelf_counted { S.faults shelf.old ≤ S.faults shelf.new }
    ensures sink_counted { K.faults sink.old ≤ K.faults sink.new }
{
    match answer(alloc, words, shelf) {
        Ok(answer) => send_answer(&answer, sink),
        Err(NoMemory) => Status::NoMemory,
    }
}
