//! The words of a command line: each is read once, into the job that they ask for.

ghost use Rattle.fond_commands.specs.Budgets.{IsBudget, IsLimit, IsSeed, IsSize, WritesUpTo};
ghost use Rattle.fond_commands.specs.Words.{word_of, file_count, command_of, Say, SayNone, IsFileName, AskFor, AskForNone};
ghost use Rattle.fond_commands.specs.declared.words.Command.TheVariants.{Succ as IsSucc, Plan as IsPlan, Simulate as IsSimulate, Demo as IsDemo, Explain as IsExplain, Graph as IsGraph, Duel as IsDuel, Best as IsBest};
ghost use Rattle.std.specs.Prelude.{◌≡◌, ◌≢◌, ◌<◌, [], ℕ, List, All, length, Decides, IfOk, MatchOption};

use fond_succ::action::read_action;
use fond_text::fault::NoMemory;
use fond_text::number::read_number;
use fond_text::word::Word;
use fond_tree::tree::Tree;
use std::alloc::Global;

/// A command.
#[derive(Clone, Copy)]
pub enum Command {
    Succ,
    Run,
    Check,
    Plan,
    Migrate,
    Simulate,
    Demo,
    Explain,
    Graph,
    Duel,
    Rate,
    Best,
}

/// The command of a word, and how many names of files follow the word.
fn row_of(word: &Word) -> Option<(Command, usize)>
    ensures { MatchOption result ((command : Command) → word.now ≢ word_of command) (λ row. (word.now ≡ word_of row.0) × (row.1 ≡ file_count row.0)) }
{
    match word.bytes() {
        b"succ" => Some((Command::Succ, 2)),
        b"run" => Some((Command::Run, 5)),
        b"check" => Some((Command::Check, 4)),
        b"plan" => Some((Command::Plan, 3)),
        b"migrate" => Some((Command::Migrate, 4)),
        b"simulate" => Some((Command::Simulate, 4)),
        b"demo" => Some((Command::Demo, 0)),
        b"explain" => Some((Command::Explain, 4)),
        b"graph" => Some((Command::Graph, 4)),
        b"duel" => Some((Command::Duel, 4)),
        b"rate" => Some((Command::Rate, 4)),
        b"best" => Some((Command::Best, 3)),
        _ => None,
    }
}

/// What a command line asks for: a command, with what it needs beside its files.
#[derive(Drop)]
pub enum Job {
    /// The successors by an action, which is given by its tree, a node of leaves.
    Succ { action: Tree },
    Run,
    Check,
    /// A budget from 1 to 1,000,000.
    Plan { budget: u32 },
    Migrate,
    /// A seed, and a number of steps from 1 to 1,000,000.
    Simulate { seed: u64, steps: u32 },
    /// A size from 1 to 100.
    Demo { size: u32 },
    /// A number of states from 1 to 1,000.
    Explain { limit: u32 },
    /// A number of states from 1 to 1,000,000.
    Graph { limit: u32 },
    /// A number of steps from 1 to 1,000,000.
    Duel { steps: u32 },
    Rate,
    /// A budget from 1 to 1,000,000.
    Best { budget: u32 },
}

/// A job, and the names of its files.
#[derive(Drop)]
pub struct Asked<'a> {
    pub job: Job,
    pub names: &'a [Word],
}

/// The number from 1 to a bound that a word writes, if it is one.
fn read_up_to(word: &Word, most: u64) -> Option<u32>
    requires { most < 4294967296 }
    ensures { MatchOption result ((number : ℕ) → ¬ WritesUpTo most word.now number) (WritesUpTo most word.now) }
{
    let number = read_number(word.bytes())?;
    if number == 0 {
        return None;
    }
    if number > most {
        return None;
    }
    Some(number as u32)
}

/// The budget or the number of steps that a word writes, if it is one.
fn read_budget(word: &Word) -> Option<u32>
    ensures { MatchOption result ((budget : ℕ) → ¬ IsBudget word.now budget) (IsBudget word.now) }
{
    read_up_to(word, 1_000_000)
}

/// The number of states for `explain` that a word writes, if it is one.
fn read_limit(word: &Word) -> Option<u32>
    ensures { MatchOption result ((limit : ℕ) → ¬ IsLimit word.now limit) (IsLimit word.now) }
{
    read_up_to(word, 1000)
}

/// The size that a word writes, if it is one.
fn read_size(word: &Word) -> Option<u32>
    ensures { MatchOption result ((size : ℕ) → ¬ IsSize word.now size) (IsSize word.now) }
{
    read_up_to(word, 100)
}

/// The seed that a word writes, if it is one.
fn read_seed(word: &Word) -> Option<u64>
    ensures { MatchOption result ((seed : ℕ) → ¬ IsSeed word.now seed) (IsSeed word.now) }
{
    read_number(word.bytes())
}

/// The job of `succ` for the words after the names of its files.
fn read_succ(alloc: Global, rest: &[Word]) -> Result<Option<Job>, NoMemory>
    ensures { IfOk result (λ found. MatchOption found (SayNone IsSucc rest.now) (λ job. (command_of job ≡ IsSucc) × Say rest.now job)) }
{
    let [word] = rest else {
        return Ok(None);
    };
    match read_action(alloc, word)? {
        Some(action) => Ok(Some(Job::Succ { action })),
        None => Ok(None),
    }
}

/// The job of `plan` for the words after the names of its files.
fn read_plan(rest: &[Word]) -> Option<Job>
    ensures { MatchOption result (SayNone IsPlan rest.now) (λ job. (command_of job ≡ IsPlan) × Say rest.now job) }
{
    let [word] = rest else {
        return None;
    };
    match read_budget(word) {
        Some(budget) => Some(Job::Plan { budget }),
        None => None,
    }
}

/// The job of `simulate` for the words after the names of its files.
fn read_simulate(rest: &[Word]) -> Option<Job>
    ensures { MatchOption result (SayNone IsSimulate rest.now) (λ job. (command_of job ≡ IsSimulate) × Say rest.now job) }
{
    let [seed, steps] = rest else {
        return None;
    };
    let Some(seed) = read_seed(seed) else {
        return None;
    };
    match read_budget(steps) {
        Some(steps) => Some(Job::Simulate { seed, steps }),
        None => None,
    }
}

/// The job of `demo` for the words after its own.
fn read_demo(rest: &[Word]) -> Option<Job>
    ensures { MatchOption result (SayNone IsDemo rest.now) (λ job. (command_of job ≡ IsDemo) × Say rest.now job) }
{
    let [word] = rest else {
        return None;
    };
    match read_size(word) {
        Some(size) => Some(Job::Demo { size }),
        None => None,
    }
}

/// The job of `explain` for the words after the names of its files.
fn read_explain(rest: &[Word]) -> Option<Job>
    ensures { MatchOption result (SayNone IsExplain rest.now) (λ job. (command_of job ≡ IsExplain) × Say rest.now job) }
{
    let [word] = rest else {
        return None;
    };
    match read_limit(word) {
        Some(limit) => Some(Job::Explain { limit }),
        None => None,
    }
}

/// The job of `graph` for the words after the names of its files.
fn read_graph(rest: &[Word]) -> Option<Job>
    ensures { MatchOption result (SayNone IsGraph rest.now) (λ job. (command_of job ≡ IsGraph) × Say rest.now job) }
{
    let [word] = rest else {
        return None;
    };
    match read_budget(word) {
        Some(limit) => Some(Job::Graph { limit }),
        None => None,
    }
}

/// The job of `duel` for the words after the names of its files.
fn read_duel(rest: &[Word]) -> Option<Job>
    ensures { MatchOption result (SayNone IsDuel rest.now) (λ job. (command_of job ≡ IsDuel) × Say rest.now job) }
{
    let [word] = rest else {
        return None;
    };
    match read_budget(word) {
        Some(steps) => Some(Job::Duel { steps }),
        None => None,
    }
}

/// The job of `best` for the words after the names of its files.
fn read_best(rest: &[Word]) -> Option<Job>
    ensures { MatchOption result (SayNone IsBest rest.now) (λ job. (command_of job ≡ IsBest) × Say rest.now job) }
{
    let [word] = rest else {
        return None;
    };
    match read_budget(word) {
        Some(budget) => Some(Job::Best { budget }),
        None => None,
    }
}

/// A job that needs nothing beside its files, if there are no words after their names.
fn read_bare(rest: &[Word], job: Job) -> Option<Job>
    requires alone { (words : List (List ℕ)) → Say words job → words ≡ [] }
    requires bare { Say [] job }
    ensures { MatchOption result (¬ Say rest.now job) (λ found. (found ≡ job) × Say rest.now job) }
{
    if rest.is_empty() { Some(job) } else { None }
}

/// The job of a command for the words after the names of its files.
fn read_job(alloc: Global, command: Command, rest: &[Word]) -> Result<Option<Job>, NoMemory>
    ensures { IfOk result (λ found. MatchOption found (SayNone command rest.now) (λ job. (command_of job ≡ command) × Say rest.now job)) }
{
    match command {
        Command::Succ => read_succ(alloc, rest),
        Command::Run => Ok(read_bare(rest, Job::Run)),
        Command::Check => Ok(read_bare(rest, Job::Check)),
        Command::Plan => Ok(read_plan(rest)),
        Command::Migrate => Ok(read_bare(rest, Job::Migrate)),
        Command::Simulate => Ok(read_simulate(rest)),
        Command::Demo => Ok(read_demo(rest)),
        Command::Explain => Ok(read_explain(rest)),
        Command::Graph => Ok(read_graph(rest)),
        Command::Duel => Ok(read_duel(rest)),
        Command::Rate => Ok(read_bare(rest, Job::Rate)),
        Command::Best => Ok(read_best(rest)),
    }
}

/// Whether all words are names of files.
fn are_names(words: &[Word]) -> bool
    ensures { Decides result (All IsFileName words.now) }
{
    words.iter().all(|word| !word.bytes().is_empty())
}

/// The job that words ask for, with the names of its files. Takes time and memory in the length of an action, and otherwise
/// constant time for each word.
pub fn read_words(alloc: Global, words: &[Word]) -> Result<Option<Asked<'_>>, NoMemory>
    ensures { IfOk result (λ found. MatchOption found (AskForNone words.now) (λ asked. AskFor words.now asked.job asked.names.now)) }
{
    let Some((word, given)) = words.split_first() else {
        return Ok(None);
    };
    let Some((command, files)) = row_of(word) else {
        return Ok(None);
    };
    if given.len() < files {
        return Ok(None);
    }
    let (names, rest) = given.split_at(files);
    if !are_names(names) {
        return Ok(None);
    }
    match read_job(alloc, command, rest)? {
        Some(job) => Ok(Some(Asked { job, names })),
        None => Ok(None),
    }
}
