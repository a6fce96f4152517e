//! The nodes of a graph.

ghost use Rattle.fond_graph.specs.Drawings.{is_goal_node, node_data, nodes_data, rule_data, true_texts};
ghost use Rattle.fond_graph.specs.Parts.{atom_strings, listed};
ghost use Rattle.fond_rules.specs.Belongs.{BelongTo};
ghost use Rattle.fond_text.specs.Text.{Adds};
ghost use Rattle.serde_json.specs.Data.{boolean, string};
ghost use Rattle.serde_json.specs.Written.{comma_if, compact_text};
ghost use Rattle.std.specs.Prelude.{◌≡◌, ◌++◌, ℕ, [], List, Bool, true, false, if◌then◌else◌, length, map, slice_get, Some};

use crate::items::put_comma;
use crate::strings::Strings;
use fond_reach::node::Node;
use fond_rules::rules::Rules;
use fond_state::state::State;
use fond_store::store::Store;
use fond_task::task::Task;
use fond_text::list::List;
use fond_text::text::Text;

/// What the nodes of a graph are made of: the strings are those of the atoms, so that none is made twice.
#[derive(Drop)]
pub(crate) struct Drawing<'a> {
    pub task: &'a Task,
    pub rules: &'a Rules,
    pub strings: &'a Strings,
    pub ghost belong: { BelongTo task.now rules.now },
    pub ghost strings_are: { strings.now ≡ atom_strings task.now },
}

/// Adds the string of an atom, if the atom is true.
fn put_if(is_true: bool, string: &List<u8>, later: &mut bool, text: &mut Text)
    ensures part { Adds text.old text.new (if is_true then comma_if later.old ++ string.now else []) }
    ensures later { later.new ≡ (if is_true then true else later.old) }
{
    if is_true {
        put_comma(later, text);
        text.add(string.as_slice());
    }
}

/// Adds whether a node is a goal.
fn put_goal(node: &Node, text: &mut Text)
    ensures { Adds text.old text.new (compact_text (boolean (is_goal_node node.now))) }
{
    match node {
        Node::Goal => text.add(b"true"),
        _ => text.add(b"false"),
    }
}

impl<'a> Drawing<'a> {
    /// Adds the strings of the atoms that are true in the state. Takes time in the number of atoms.
    fn put_atoms(&self, state: &State, text: &mut Text)
        requires { length state.now ≡ length self.now.task.now.atoms }
        ensures { Adds text.old text.new (listed false (map string (true_texts self.now.task.now state.now))) }
    {
        let mut later = false;
        for (atom, string) in self.strings.as_slice().iter().enumerate() {
            put_if(state.get(atom as u32), string, &mut later, text);
        }
    }

    /// Adds the rule that is followed at a node.
    fn put_rule(&self, state: &State, node: &Node, text: &mut Text)
        requires { length state.now ≡ length self.now.task.now.atoms }
        ensures { Adds text.old text.new (compact_text (rule_data self.now.rules.now state.now node.now)) }
    {
        let Node::Acts { .. } = node else {
            return text.add(b"null");
        };
        match self.rules.select(state) {
            Some(rule) => text.add_number(rule as u64),
            None => text.add(b"null"),
        }
    }

    /// Adds a node.
    fn put_node(&self, state: &State, node: &Node, text: &mut Text)
        requires { length state.now ≡ length self.now.task.now.atoms }
        ensures { Adds text.old text.new (compact_text (node_data self.now.task.now self.now.rules.now state.now node.now)) }
    {
        text.add(b"{\"atoms\":[");
        self.put_atoms(state, text);
        text.add(b"],\"goal\":");
        put_goal(node, text);
        text.add(b",\"rule\":");
        self.put_rule(state, node, text);
        text.add(b"}");
    }

    /// Adds the nodes of the states. Takes time in the number of atoms for each, beside that of the choice.
    pub(crate) fn put_nodes(&self, states: &Store, nodes: &[Node], text: &mut Text)
        requires counted { length states.now ≡ length nodes.now }
        requires long { (number : ℕ) (state : List Bool) → slice_get states.now number ≡ Some state → length state ≡ length self.now.task.now.atoms }
        ensures { Adds text.old text.new (listed false (nodes_data self.now.task.now self.now.rules.now states.now nodes.now)) }
    {
        let mut later = false;
        for number in 0..states.len() {
            put_comma(&mut later, text);
            self.put_node(states.get(number), &nodes[number as usize], text);
        }
    }
}
