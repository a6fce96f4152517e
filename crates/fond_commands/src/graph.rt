//! The command `graph`: what the rules of a certificate reach, as JSON.

ghost use Rattle.fond_graph.specs.Drawings.{IsDrawn};
ghost use Rattle.fond_graph.specs.declared.drawn.Drawn.{Drawn as WhatIsDrawn};
ghost use Rattle.fond_rules.specs.Belongs.{BelongTo};
ghost use Rattle.fond_commands.specs.Drawn.{GraphReply, drawn_reply};
ghost use Rattle.fond_commands.specs.Rejections.{Rejects};
ghost use Rattle.std.specs.Prelude.{◌≡◌, IfOk, IfErr};

use crate::answer::{Answer, undecided};
use crate::certified::{Certified, read_certified};
use crate::rejection::Rejection;
use crate::status::Ending;
use crate::traced::rules_of;
use fond_front::texts::TaskTexts;
use fond_graph::drawn::Drawn;
use fond_graph::graph::graph;
use fond_rules::rules::Rules;
use fond_task::task::Task;
use fond_text::fault::NoMemory;
use std::alloc::Global;

/// The answer about rules: their graph, unless it has more states than the limit.
fn graph_answer(alloc: Global, game: &Task, rules: &Rules, limit: u32) -> Result<Answer, NoMemory>
    requires { BelongTo game.now rules.now }
    ensures { IfOk result (λ answer. (drawn : WhatIsDrawn) × IsDrawn game.now rules.now limit drawn × (answer ≡ drawn_reply limit drawn)) }
{
    match graph(alloc, game, rules, limit)? {
        Drawn::Text(text) => Ok(Answer::new(text, Ending::Done)),
        Drawn::Spent => undecided(alloc, limit),
    }
}

/// The answer to `graph`: the graph of what the certificate's rules reach, or why there is none.
pub fn draw(alloc: Global, texts: &TaskTexts, cert: &[u8], limit: u32) -> Result<Answer, Rejection>
    ensures replied { IfOk result (GraphReply texts.now cert.now limit) }
    ensures rejected { IfErr result (Rejects (GraphReply texts.now cert.now limit)) }
{
    let Certified { files, cert } = read_certified(alloc, texts, cert)?;
    let rules = rules_of(alloc, cert);
    Ok(graph_answer(alloc, &files.game, &rules, limit)?)
}
