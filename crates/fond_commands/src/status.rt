//! How the tool ends.

ghost use Rattle.fond_commands.specs.Numbers.{number_of, status_of};
ghost use Rattle.std.specs.Prelude.{◌≡◌};

/// How the tool ended, in the order of the numbers.
#[derive(Clone, Copy)]
pub enum Status {
    /// The job's answer was written.
    Done,
    /// No policy is a solution.
    Unsolvable,
    /// More states than the budget are reachable, and the initial state is not hopeless.
    Undecided,
    /// A file has a fault.
    Refused,
    /// The words fit no command.
    BadWords,
    /// A file was not read.
    ReadFault,
    /// Not all of the text was written.
    WriteFault,
    /// The certificate, the script or the action is refused.
    Rejected,
    /// A run ended in a state that is no goal.
    Stopped,
    /// Memory ran out, and nothing was written.
    NoMemory,
    /// The policy of a table is no solution.
    NotSolution,
}

/// How a reply ends once its text is written: as the tool does, but for a write fault and for want of memory.
#[derive(Clone, Copy)]
pub enum Ending {
    Done,
    Unsolvable,
    Undecided,
    Refused,
    BadWords,
    ReadFault,
    Rejected,
    Stopped,
    NotSolution,
}

impl Ending {
    /// The status of the ending.
    pub fn status(self) -> Status
        ensures { result ≡ status_of self }
    {
        match self {
            Ending::Done => Status::Done,
            Ending::Unsolvable => Status::Unsolvable,
            Ending::Undecided => Status::Undecided,
            Ending::Refused => Status::Refused,
            Ending::BadWords => Status::BadWords,
            Ending::ReadFault => Status::ReadFault,
            Ending::Rejected => Status::Rejected,
            Ending::Stopped => Status::Stopped,
            Ending::NotSolution => Status::NotSolution,
        }
    }
}

impl Status {
    /// The number with which the program ends.
    pub fn number(self) -> u8
        ensures { result ≡ number_of self }
    {
        match self {
            Status::Done => 0,
            Status::Unsolvable => 1,
            Status::Undecided => 2,
            Status::Refused => 3,
            Status::BadWords => 4,
            Status::ReadFault => 5,
            Status::WriteFault => 6,
            Status::Rejected => 7,
            Status::Stopped => 8,
            Status::NoMemory => 9,
            Status::NotSolution => 10,
        }
    }
}
