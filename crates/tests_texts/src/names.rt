//! That names can be opened, which no clause can say: want of memory may come at any time.
use crate::expect::expect_same;
use c_names::Names;
use std::alloc::Global;
use std::test::Fail;
use tc_word::OutOfMemory;

/// x means 7, y 8, and x again 9.
fn three_names(alloc: Global) -> Result<Names<'static, u32>, OutOfMemory> {
    let mut names = Names::new(alloc);
    names.open("x", 7)?;
    names.open("y", 8)?;
    names.open("x", 9)?;
    Ok(names)
}

#[test]
fn the_last_of_a_name_is_meant_until_it_is_closed(rt: HostRuntime) -> Result<(), Fail> {
    let mut names = three_names(rt.alloc())?;
    expect_same(&rt, names.find("x"), Some((2, 9)));
    names.close(2);
    expect_same(&rt, names.find("x"), Some((0, 7)));
    expect_same(&rt, names.find("y"), Some((1, 8)));
    names.close(0);
    expect_same(&rt, names.find("x"), None);
    expect_same(&rt, names.len(), 0);
    Ok(())
}
