//! Reading a text as a tree or a forest, by recursive descent over its tokens.

ghost use Rattle.fond_text.specs.Faults.{Refuses};
ghost use Rattle.fond_text.specs.declared.code.TheConstants.{DEEPEST};
ghost use Rattle.fond_text.specs.declared.fault.FrontError.TheVariants.{Refused};
ghost use Rattle.fond_tree.specs.Faults.{IsFaultOf, IsForestFaultOf};
ghost use Rattle.fond_tree.specs.Left.{BeginsUnclosed};
ghost use Rattle.fond_tree.specs.Reading.{ReadsTree, ReadsForest, Stops};
ghost use Rattle.fond_tree.specs.Scanning.{marks_left, end_left};
ghost use Rattle.fond_tree.specs.Spelling.{IsReadAs, IsReadAsForest};
ghost use Rattle.std.specs.Prelude.{◌≡◌, ◌≢◌, ◌<◌, ◌≤◌, [], IfOk, IfErr};

use crate::scan::{Piece, Scanner};
use crate::tree::{Forest, Tree};
use fond_text::code::{
    DEEPEST, LONGEST_TEXT, MISPLACED, NO_TREE, STRAY_BYTE, TOO_DEEP, TOO_LONG, UNCLOSED,
};
use fond_text::fault::{Fault, FrontError};
use fond_text::name::Name;
use fond_text::place::{FileKind, Place};
use std::alloc::Global;

/// The tree that a text spells. The text is refused with its one fault, F1 to F6 (docs/FAULTS.md), if it spells no
/// tree, has more than 16,777,216 bytes, or has a parenthesis inside 128 open ones. Takes time in the length of the
/// text and memory in the size of the tree; only nodes are read by recursion.
pub fn read_tree(alloc: Global, file: FileKind, b: &[u8]) -> Result<Tree, FrontError>
    ensures ok { IfOk result (IsReadAs b.now) }
    ensures refused { IfErr result (Refuses (IsFaultOf file b.now)) }
{
    if b.len() > LONGEST_TEXT {
        let place = Place { line: 1, column: 1 };
        return Err(refused(file, place, TOO_LONG));
    }
    let mut scanner = Scanner::new(b);
    if let Some(place) = scanner.end() {
        return Err(refused(file, place, NO_TREE));
    }
    let tree = read_next(alloc, file, &mut scanner, DEEPEST)?;
    match scanner.next() {
        Piece::End(_) => Ok(tree),
        Piece::Stray(place) => Err(refused(file, place, STRAY_BYTE)),
        Piece::Open(place) => Err(refused(file, place, MISPLACED)),
        Piece::Close(place) => Err(refused(file, place, MISPLACED)),
        Piece::Leaf(place, _) => Err(refused(file, place, MISPLACED)),
    }
}

/// The trees that a text spells, one after the other; blanks and comments may stand between them, and there may be none.
/// The text is refused with its one fault, F1 to F5 (docs/FAULTS.md), if it spells no forest, has more than 16,777,216
/// bytes, or has a parenthesis inside 128 open ones. Takes time and memory as [`read_tree`] does.
pub fn read_forest(alloc: Global, file: FileKind, b: &[u8]) -> Result<Forest, FrontError>
    ensures ok { IfOk result (λ trees. IsReadAsForest b.now trees.items) }
    ensures refused { IfErr result (Refuses (IsForestFaultOf file b.now)) }
{
    if b.len() > LONGEST_TEXT {
        let place = Place { line: 1, column: 1 };
        return Err(refused(file, place, TOO_LONG));
    }
    let mut scanner = Scanner::new(b);
    let mut trees = Vec::new(alloc);
    while scanner.end().is_none() {
        trees.push(read_next(alloc, file, &mut scanner, DEEPEST)?)?;
    }
    Ok(trees)
}

/// The refusal of a file with a fault.
fn refused(file: FileKind, place: Place, code: u8) -> FrontError
    ensures { result ≡ Refused (record { file = file; place = place; code = code }) }
{
    FrontError::Refused(Fault { file, place, code })
}

/// The next tree, of at most so many parentheses that are open at once. If none may be open yet, a token is left.
#[cycle(reading)]
fn read_next(
    alloc: Global,
    file: FileKind,
    scanner: &mut Scanner<'_>,
    left: usize,
) -> Result<Tree, FrontError>
    requires within { left ≤ DEEPEST }
    requires unclosed { left < DEEPEST → BeginsUnclosed (marks_left scanner.old) }
    requires some { left ≡ DEEPEST → marks_left scanner.old ≢ [] }
    ensures ok { IfOk result (λ tree. ReadsTree left (marks_left scanner.old) tree (marks_left scanner.new)) }
    ensures err { IfErr result (Refuses (Stops file left (marks_left scanner.old) (end_left scanner.old))) }
    ensures end { end_left scanner.new ≡ end_left scanner.old }
{
    match scanner.next() {
        Piece::Leaf(place, bytes) => Ok(Tree::Leaf(place, Name::lower(alloc, bytes)?)),
        Piece::Open(place) if left > 0 => {
            let members = read_members(alloc, file, scanner, left - 1)?;
            Ok(Tree::Node(place, members))
        }
        Piece::Open(place) => Err(refused(file, place, TOO_DEEP)),
        Piece::Close(place) => Err(refused(file, place, MISPLACED)),
        Piece::Stray(place) => Err(refused(file, place, STRAY_BYTE)),
        Piece::End(place) => Err(refused(file, place, UNCLOSED)),
    }
}

/// The trees before the next closing parenthesis, which is taken too.
#[cycle(reading)]
fn read_members(
    alloc: Global,
    file: FileKind,
    scanner: &mut Scanner<'_>,
    left: usize,
) -> Result<Forest, FrontError>
    requires { left < DEEPEST }
    ensures ok { IfOk result (λ trees. ReadsForest left (marks_left scanner.old) trees.items (marks_left scanner.new)) }
    ensures err { IfErr result (Refuses (Stops file left (marks_left scanner.old) (end_left scanner.old))) }
    ensures end { end_left scanner.new ≡ end_left scanner.old }
{
    // Most nodes of a task are short, so room is taken one by one at first.
    let mut members = Vec::with_capacity(alloc, 1)?;
    while !scanner.closes() {
        members.push(read_next(alloc, file, scanner, left)?)?;
    }
    Ok(members)
}
