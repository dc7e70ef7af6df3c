//! Paths told and taken back.
use selection::PathTable;
use std::test::Fail;

// Is this the path of block 1 and neighbour 5?
fn holds(table: &PathTable, path: &[u8]) -> bool {
    table.path(1, 5) == Some(path)
}

#[test]
fn a_path_is_told(rt: HostRuntime) -> Result<(), Fail> {
    let mut table = PathTable::new(rt.alloc(), 2)?;
    assert!(rt; table.set(1, 5, &[5, 9]) && holds(&table, &[5, 9]));
    table.clear(1, 5);
    assert!(rt; table.path(1, 5).is_none());
    Ok(())
}

#[test]
fn a_block_that_there_is_not(rt: HostRuntime) -> Result<(), Fail> {
    let mut table = PathTable::new(rt.alloc(), 2)?;
    assert!(rt; !table.set(2, 5, &[5, 9]));
    Ok(())
}

#[test]
fn a_copy_holds_the_same(rt: HostRuntime) -> Result<(), Fail> {
    let mut table = PathTable::new(rt.alloc(), 2)?;
    table.set(1, 5, &[5, 9]);
    let copy = table.clone()?;
    table.clear(1, 5);
    assert!(rt; holds(&copy, &[5, 9]));
    Ok(())
}
