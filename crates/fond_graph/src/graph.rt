//! The graph that rules reach.

ghost use Rattle.fond_graph.specs.Drawings.{IsDrawn, graph_data};
ghost use Rattle.fond_reach.specs.Graphs.{IsGraph};
ghost use Rattle.fond_rules.specs.Belongs.{BelongTo};
ghost use Rattle.fond_task.specs.Policies.{selected};
ghost use Rattle.serde_json.specs.Written.{compact_text};
ghost use Rattle.std.specs.Prelude.{◌≡◌, ◌++◌, codes, IfOk};

use crate::drawn::Drawn;
use crate::edges::put_edges;
use crate::nodes::Drawing;
use crate::strings::strings_of;
use fond_reach::chooser::FirstRules;
use fond_reach::reached::{Reached, reach};
use fond_rules::rules::Rules;
use fond_task::task::Task;
use fond_text::fault::NoMemory;
use fond_text::text::Text;
use std::alloc::Global;

/// The text of the graph that rules reach.
fn text_of(alloc: Global, t: &Task, rules: &Rules, reached: &Reached) -> Result<Vec<u8>, NoMemory>
    requires belong { BelongTo t.now rules.now }
    requires drawn { IsGraph t.now (selected rules.now) reached.now.states reached.now.nodes.items }
    ensures { IfOk result (λ text. text.items ≡ compact_text (graph_data t.now rules.now reached.now.states reached.now.nodes.items) ++ codes "\n") }
{
    let strings = strings_of(alloc, t)?;
    let drawing = Drawing {
        task: t,
        rules,
        strings: &strings,
    };
    let mut text = Text::new(alloc);
    text.add(b"{\"edges\":[");
    put_edges(reached.nodes.as_slice(), &mut text);
    text.add(b"],\"nodes\":[");
    drawing.put_nodes(&reached.states, reached.nodes.as_slice(), &mut text);
    text.add(b"]}\n");
    text.finish()
}

/// The graph of the states that the rules reach, unless these are more than the limit. Takes the time and memory of `reach`, time in
/// the number of atoms for each state, and memory for the text.
pub fn graph(alloc: Global, t: &Task, rules: &Rules, limit: u32) -> Result<Drawn, NoMemory>
    requires { BelongTo t.now rules.now }
    ensures { IfOk result (IsDrawn t.now rules.now limit) }
{
    let chooser = FirstRules::new(t, rules);
    let Some(reached) = reach(alloc, t, &chooser, limit)? else {
        return Ok(Drawn::Spent);
    };
    Ok(Drawn::Text(text_of(alloc, t, rules, &reached)?))
}
