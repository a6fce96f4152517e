//! The jobs, each over the contents of its files.

ghost use Rattle.fond_tool.specs.Jobs.{JobReply, texts as texts_by};
ghost use Rattle.fond_commands.specs.Rejections.{Rejects};
ghost use Rattle.fond_commands.specs.Words.{command_of, file_count, Say};
ghost use Rattle.std.specs.Prelude.{◌≡◌, ◌≤◌, [], ℕ, List, get_or, length, IfOk, IfErr};

use crate::best::find_best;
use crate::demo::demo;
use crate::plan::plan;
use fond_commands::answer::Answer;
use fond_commands::check::check_cert;
use fond_commands::duel::duel;
use fond_commands::explain::explain;
use fond_commands::fetch::Content;
use fond_commands::graph::draw;
use fond_commands::migrate::migrate;
use fond_commands::rate::rate_cert;
use fond_commands::rejection::Rejection;
use fond_commands::run::run;
use fond_commands::simulate::simulate;
use fond_commands::succ::succ;
use fond_commands::words::Job;
use fond_front::texts::TaskTexts;
use std::alloc::Global;

/// The texts of the task that the first three files describe.
fn texts(contents: &[Content]) -> TaskTexts<'_>
    requires { 3 ≤ length contents.now }
    ensures { result ≡ texts_by (get_or contents.now 0 []) (get_or contents.now 1 []) (get_or contents.now 2 []) }
{
    TaskTexts::new(
        contents[0].bytes(),
        contents[1].bytes(),
        contents[2].bytes(),
    )
}

/// The texts of the task that two files describe, with an empty side list.
fn texts_without_side(contents: &[Content]) -> TaskTexts<'_>
    requires { 2 ≤ length contents.now }
    ensures { result ≡ texts_by (get_or contents.now 0 []) (get_or contents.now 1 []) [] }
{
    TaskTexts::new(contents[0].bytes(), contents[1].bytes(), &[])
}

/// The answer of a job to the contents of its files.
pub fn do_job(alloc: Global, job: Job, contents: &[Content]) -> Result<Answer, Rejection>
    requires said { (rest : List (List ℕ)) × Say rest job }
    requires count { length contents.now ≡ file_count (command_of job) }
    ensures replied { IfOk result (JobReply job contents.now) }
    ensures rejected { IfErr result (Rejects (JobReply job contents.now)) }
{
    match job {
        Job::Succ { action } => succ(alloc, &texts_without_side(contents), &action),
        Job::Run => run(
            alloc,
            &texts(contents),
            contents[3].bytes(),
            contents[4].bytes(),
        ),
        Job::Check => check_cert(alloc, &texts(contents), contents[3].bytes()),
        Job::Plan { budget } => plan(alloc, &texts(contents), budget),
        Job::Migrate => migrate(alloc, &texts(contents), contents[3].bytes()),
        Job::Simulate { seed, steps } => {
            simulate(alloc, &texts(contents), contents[3].bytes(), seed, steps)
        }
        Job::Demo { size } => demo(alloc, size),
        Job::Explain { limit } => explain(alloc, &texts(contents), contents[3].bytes(), limit),
        Job::Graph { limit } => draw(alloc, &texts(contents), contents[3].bytes(), limit),
        Job::Duel { steps } => duel(alloc, &texts(contents), contents[3].bytes(), steps),
        Job::Rate => rate_cert(alloc, &texts(contents), contents[3].bytes()),
        Job::Best { budget } => find_best(alloc, &texts(contents), budget),
    }
}
