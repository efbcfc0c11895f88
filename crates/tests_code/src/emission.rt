//! That code is made where memory is there, which no clause can say.

use crate::expect::expect_same;
use crate::making::{alone, nine};
use patmos_instr::{Bundle, Imm12, ImmFunc, Op, Reg};
use sp_emit::emit;
use sp_shape::Part;
use std::test::Fail;

// the bundle of straight code that has no other
fn only(part: Option<&Part>) -> Option<Bundle> {
    let Some(Part::Straight { bundles }) = part else {
        return None;
    };
    match bundles.as_slice() {
        [bundle] => Some(*bundle),
        _ => None,
    }
}

// what a function begins with, r5 = 9, in which word 1 of the frame stands, what a function ends with, and the return
#[test]
fn a_constant_is_kept(rt: HostRuntime) -> Result<(), Fail> {
    let unit = nine(rt.alloc())?;
    let shape = emit(rt.alloc(), &unit)?;
    let functions = shape.functions.as_slice();
    expect_same(&rt, functions.len(), 1);
    let parts = functions.first().expect(&rt, "a function").as_slice();
    expect_same(&rt, parts.len(), 4);
    let kept = alone(Op::AluImm {
        func: ImmFunc::Add,
        rd: Reg::low(5),
        ra: Reg::low(0),
        imm: Imm12::low(9),
    });
    expect_same(&rt, only(parts.get(1)), Some(kept));
    Ok(())
}
