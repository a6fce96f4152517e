use fond_text::bytes::Bytes;
use fond_text::fault::NoMemory;
use fond_text::place::FileKind;
use fond_tree::read::read_tree;
use std::alloc::Global;
use std::test::Fail;

/// A text, and another text after it.
fn joined(alloc: Global, text: &[u8], more: &[u8]) -> Result<Bytes, NoMemory> {
    let mut bytes = Bytes::copy(alloc, text)?;
    bytes.extend(more)?;
    Ok(bytes)
}

#[test]
fn a_list_is_extended(rt: HostRuntime) -> Result<(), Fail> {
    let bytes = joined(rt.alloc(), b"abc", b"de")?;
    assert_eq!(rt; bytes.as_slice(), b"abcde".as_slice());
    Ok(())
}

#[test]
fn a_tree_has_a_head(rt: HostRuntime) -> Result<(), Fail> {
    let tree = read_tree(rt.alloc(), FileKind::Problem, b"(B (c))")?;
    assert_eq!(rt; tree.head(), Some(b"b".as_slice()));
    Ok(())
}
