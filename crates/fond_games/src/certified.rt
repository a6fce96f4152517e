//! A proved test of a table of levels: each node has the one that follows from those of its successors.

ghost use Rattle.fond_games.specs.Certified.{IsAbove, IsGreatest, IsLeast, IsLesser, IsRightAt};
ghost use Rattle.fond_games.specs.Levels.{AreLevels};
ghost use Rattle.std.specs.Prelude.{◌≡◌, true, length};

use crate::graph::{level_of, successors};
use crate::kind::Kind;
use fond_text::list::List;

/// The lesser of two levels, where 0 is none.
fn lesser(one: u32, two: u32) -> u32
    ensures { IsLesser one two result }
{
    if one == 0 {
        return two;
    }
    if two == 0 {
        return one;
    }
    if one < two { one } else { two }
}

/// The least level of these nodes, 0 if none of them has one.
fn least(nodes: &[u32], table: &[u32]) -> u32
    ensures { IsLeast nodes.now table.now result }
{
    let mut least = 0;
    for node in nodes {
        least = lesser(least, level_of(table, *node));
    }
    least
}

/// The greatest level of these nodes, 0 if there are none or one of them has none.
fn greatest(nodes: &[u32], table: &[u32]) -> u32
    ensures { IsGreatest nodes.now table.now result }
{
    let mut greatest = 0;
    for node in nodes {
        let own = level_of(table, *node);
        if own == 0 {
            return 0;
        }
        greatest = own.max(greatest);
    }
    greatest
}

/// Whether a level is one more than a bound, or both are 0.
fn is_above(level: u32, bound: u32) -> bool
    ensures { result ≡ true → IsAbove level bound }
{
    if bound == 0 {
        return level == 0;
    }
    level > 0 && level - 1 == bound
}

/// Whether a node of this kind has the right level.
fn is_right_at(kind: Kind, graph: &List<List<u32>>, table: &[u32], node: u32) -> bool
    ensures { result ≡ true → IsRightAt kind graph.now table.now node }
{
    let level = level_of(table, node);
    let nexts = successors(graph, node);
    match kind {
        Kind::Goal => level == 1,
        Kind::Fair => is_above(level, least(nexts, table)),
        Kind::Unfair => is_above(level, greatest(nexts, table)),
    }
}

/// Whether a table has the levels. Takes time in the number of edges.
pub(crate) fn are_right(kinds: &[Kind], graph: &List<List<u32>>, table: &[u32], count: u32) -> bool
    requires counted { count ≡ length graph.now }
    requires known { length kinds.now ≡ length graph.now }
    ensures { result ≡ true → AreLevels kinds.now graph.now table.now }
{
    if table.len() != graph.len() {
        return false;
    }
    for node in 0..count {
        if !is_right_at(kinds[node as usize], graph, table, node) {
            return false;
        }
    }
    true
}
