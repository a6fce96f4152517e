//! The sections of a file that has no fault, by their heads.

ghost use Rattle.fond_tree.specs.Words.{has_head};
ghost use Rattle.fond_reader.specs.Files.{headed, content, contents};
ghost use Rattle.fond_reader.specs.Nodes.{sections_of as sections_of_file};
ghost use Rattle.std.specs.Prelude.{◌≡◌, ◌≤◌, length};

use fond_tree::leaves::begins;
use fond_tree::tree::Tree;

/// The members of a node after its head.
pub(crate) fn after(tree: &Tree) -> &[Tree]
    ensures { result.now ≡ content tree.now }
{
    match tree {
        Tree::Leaf(_, _) => &[],
        Tree::Node(_, members) => match members.as_slice() {
            [] => &[],
            [_, rest @ ..] => rest,
        },
    }
}

/// The members of a file after its header.
pub(crate) fn sections_of(tree: &Tree) -> &[Tree]
    ensures { result.now ≡ sections_of_file tree.now }
{
    match tree {
        Tree::Leaf(_, _) => &[],
        Tree::Node(_, members) => match members.as_slice() {
            [_, _, rest @ ..] => rest,
            _ => &[],
        },
    }
}

/// The members after this head in the section that has it, or none if no section has it.
pub(crate) fn contents_of<'a>(sections: &'a [Tree], word: &[u8]) -> &'a [Tree]
    requires { length (headed word.now sections.now) ≤ 1 }
    ensures { result.now ≡ contents word.now sections.now }
{
    for section in sections {
        if begins(section, word) {
            return after(section);
        }
    }
    &[]
}
