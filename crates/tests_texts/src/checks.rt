//! That a check succeeds, which no clause can say: want of memory may come at any time.
use crate::c_texts::parsed;
use crate::expect::expect_same;
use c_check::check;
use c_tree::Checked;
use slot_arbiter::Place;
use std::alloc::Global;

/// The checked program of a valid text that is not very long, on core 0 of 4.
pub fn checked(alloc: Global, text: &str) -> Option<Checked> {
    let unit = parsed(alloc, text).ok()?;
    let place = Place::new(4, 0, 10, 0)?;
    check(alloc, unit, &place).ok()
}

#[test]
fn a_valid_program_is_checked(rt: HostRuntime) {
    let text = "int x; int main() { if (x) { int x = x; } x = 1; return x; }";
    let program = checked(rt.alloc(), text).expect(&rt, "checked");
    expect_same(&rt, program.layout.as_slice().len(), 3);
}
