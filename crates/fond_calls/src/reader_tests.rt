use fond_reader::side::read_side;
use std::test::Fail;

#[test]
fn a_side_list_is_read(rt: HostRuntime) -> Result<(), Fail> {
    let side = read_side(rt.alloc(), b"split (move ?x home) split")?;
    assert!(rt; side.names.len() == 2 && side.patterns.len() == 1);
    Ok(())
}
