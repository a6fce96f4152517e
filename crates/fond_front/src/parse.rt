//! The first phase of reading: the texts of a domain and a problem become trees, and that of a side list a forest.

ghost use Rattle.fond_front.specs.Tasks.{AreTreesOf, OccursInTexts};
ghost use Rattle.fond_text.specs.Faults.{IsFirstAmong, Refuses};
ghost use Rattle.std.specs.Prelude.{IfOk, IfErr};

use crate::texts::TaskTexts;
use fond_text::fault::FrontError;
use fond_text::place::FileKind;
use fond_tree::read::{read_forest, read_tree};
use fond_tree::tree::{Forest, Tree};
use std::alloc::Global;

/// The trees of a domain and of a problem, and those of a side list.
#[derive(Drop)]
pub struct Trees {
    pub domain: Tree,
    pub problem: Tree,
    pub side: Forest,
}

/// The trees of three texts, or the first fault of a text.
pub fn parse(alloc: Global, texts: &TaskTexts) -> Result<Trees, FrontError>
    ensures read { IfOk result (AreTreesOf texts.now) }
    ensures refused { IfErr result (Refuses (IsFirstAmong (OccursInTexts texts.now))) }
{
    let domain = read_tree(alloc, FileKind::Domain, texts.domain())?;
    let problem = read_tree(alloc, FileKind::Problem, texts.problem())?;
    let side = read_forest(alloc, FileKind::Side, texts.side())?;
    Ok(Trees {
        domain,
        problem,
        side,
    })
}
