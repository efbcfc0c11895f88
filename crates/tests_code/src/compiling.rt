//! That the image of a task's tree is made where memory is there, which no clause can say.

use crate::expect::expect_same;
use crate::making::nine;
use c_compile::code_of;
use std::test::Fail;

// the words that the assembler gives for these bundles, written by hand
#[test]
fn words_are_the_assemblers(rt: HostRuntime) -> Result<(), Fail> {
    let unit = nine(rt.alloc())?;
    let code = code_of(rt.alloc(), &unit)?;
    let want = [
        8,
        0x8008_0000,
        0x000a_0000,
        0x0540_0000,
        0x8084_2001,
        0x000a_0009,
        0x8008_2000,
        0x0002_5000,
        0x0005_a000,
    ];
    expect_same(&rt, code.image.words(), &want);
    expect_same(&rt, code.image.starts(), &[1]);
    Ok(())
}
