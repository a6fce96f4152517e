//! The second phase of reading: trees become declarations.

ghost use Rattle.fond_front.specs.Tasks.{AreTreesOf, AreFilesOf, OccursInTrees, declarations_of};
ghost use Rattle.fond_front.specs.Texts.{Texts};
ghost use Rattle.fond_text.specs.Faults.{IsFirstAmong, Refuses};
ghost use Rattle.std.specs.Prelude.{IfOk, IfErr};

use crate::parse::Trees;
use fond_ast::files::{Domain, Problem, Side};
use fond_reader::domain::read_domain;
use fond_reader::problem::read_problem;
use fond_reader::side::read_side_list;
use fond_text::fault::FrontError;
use std::alloc::Global;

/// The declarations of three files.
#[derive(Drop)]
pub struct Files {
    pub domain: Domain,
    pub problem: Problem,
    pub side: Side,
}

/// The declarations that trees are read as, or the first fault of form.
fn files_of(alloc: Global, trees: &Trees) -> Result<Files, FrontError>
    requires { (texts : Texts) × AreTreesOf texts trees.now }
    ensures read { IfOk result (λ files. (texts : Texts) → AreTreesOf texts trees.now → AreFilesOf texts (declarations_of files)) }
    ensures refused { IfErr result (Refuses (IsFirstAmong (OccursInTrees trees.now))) }
{
    let domain = read_domain(alloc, &trees.domain)?;
    let problem = read_problem(alloc, &trees.problem)?;
    let side = read_side_list(alloc, trees.side.as_slice())?;
    Ok(Files {
        domain,
        problem,
        side,
    })
}

/// The declarations that trees are read as, or the first fault of form. The trees are dropped, so that
/// they take no memory while names are resolved.
pub fn declare(alloc: Global, trees: Trees) -> Result<Files, FrontError>
    requires { (texts : Texts) × AreTreesOf texts trees }
    ensures read { IfOk result (λ files. (texts : Texts) → AreTreesOf texts trees → AreFilesOf texts (declarations_of files)) }
    ensures refused { IfErr result (Refuses (IsFirstAmong (OccursInTrees trees))) }
{
    files_of(alloc, &trees)
}
