//! The program: it hands the words of the command line, the host's files and its standard output to the tool, and ends
//! with the number of the tool's status.
#![tactic(auto)]

use fond_commands::status::Status;
use fond_edge::host_shelf::HostShelf;
use fond_edge::host_sink::HostSink;
use fond_text::fault::NoMemory;
use fond_text::word::Word;
use fond_tool::tool::run_tool;
use std::alloc::{AllocError, AllocFailed};
use std::process::ExitCode;
use std::rt::Env;
use std::{env, io};

/// The number to end with if the host does not give the command line. No status has this number.
const NO_COMMAND_LINE: u8 = 11;

/// Why there are no words.
#[derive(Clone, Copy)]
enum NoWords {
    NotGiven,
    NoMemory,
}

impl From<io::Error> for NoWords {
    fn from(e: io::Error) -> NoWords {
        if e.kind() == io::ErrorKind::OutOfMemory {
            NoWords::NoMemory
        } else {
            NoWords::NotGiven
        }
    }
}

impl From<NoMemory> for NoWords {
    fn from(_e: NoMemory) -> NoWords {
        NoWords::NoMemory
    }
}

impl From<AllocError> for NoWords {
    fn from(_e: AllocError) -> NoWords {
        NoWords::NoMemory
    }
}

impl<T: Drop> From<AllocFailed<T>> for NoWords {
    fn from(_e: AllocFailed<T>) -> NoWords {
        NoWords::NoMemory
    }
}

/// The words of the command line after the program's name.
fn words<R: Env + AllocGlobal>(rt: &R) -> Result<Vec<Word>, NoWords> {
    let mut words = Vec::new(rt.alloc());
    for word in env::args(rt)?.skip(1) {
        words.push(Word::copy(rt.alloc(), word.as_bytes())?)?;
    }
    Ok(words)
}

fn main(rt: HostRuntime) -> ExitCode {
    let words = match words(&rt) {
        Ok(words) => words,
        Err(NoWords::NotGiven) => return ExitCode::from(NO_COMMAND_LINE),
        Err(NoWords::NoMemory) => return ExitCode::from(Status::NoMemory.number()),
    };
    let mut shelf = HostShelf::new(rt);
    let mut sink = HostSink::new(rt.stdout());
    ExitCode::from(run_tool(rt.alloc(), &words, &mut shelf, &mut sink).number())
}
