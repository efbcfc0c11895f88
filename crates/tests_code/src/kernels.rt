//! Kernels in C as cores run their compiled tasks: what gcc gives for the same texts and inputs, at times that no input
//! changes, within the bound; and texts that are refused.

use crate::expect::expect_same;
use crate::kernel_texts::{KERNELS, Kernel, Run};
use c_check::CheckError;
use c_compile::{CompileFault, Compiled, compile};
use c_lex::LexFault;
use c_parse::ParseFault;
use c_tree::{CheckFault, Checked};
use local_store::{Cell, PRIVATE_WORDS};
use patmos_core::{Core, CoreState, Next};
use slot_arbiter::{MOST_CYCLES, Place};
use std::alloc::Global;
use std::process::Abort;
use std::test::Fail;

/// How many transactions of a run are kept: more than a kernel has.
const ROOM: u32 = 20_000;

/// Words in decimal, with blanks between them. Negative numbers are in two's complement.
fn words(alloc: Global, text: &str) -> Result<Vec<u32>, Fail> {
    let mut words = Vec::new(alloc);
    for number in text.split_whitespace() {
        let word = match number.parse::<i32>() {
            Ok(number) => number.cast_unsigned(),
            Err(_) => number.parse::<u32>()?,
        };
        words.push(word)?;
    }
    Ok(words)
}

/// A core that has run a task to its end.
fn run(
    rt: &impl Abort,
    alloc: Global,
    compiled: &Compiled,
    place: &Place,
    input: &str,
) -> Result<Core, Fail> {
    let input = words(alloc, input)?;
    let mut core = Core::new(alloc, *place, &compiled.image, input.as_slice(), ROOM)?;
    expect_same(rt, core.next(MOST_CYCLES), Next::Ended);
    Ok(core)
}

/// The words of the array `out` in private memory, as a core has them.
fn out_of(alloc: Global, program: &Checked, core: &Core) -> Result<Vec<u32>, Fail> {
    let mut out = Vec::new(alloc);
    for slot in program.layout.as_slice() {
        if slot.name.as_str() == "out" {
            if let Cell::Private(first) = slot.cell {
                for word in first..first.saturating_add(slot.length) {
                    if (word as usize) < PRIVATE_WORDS {
                        out.push(core.word(Cell::Private(word)))?;
                    }
                }
            }
        }
    }
    Ok(out)
}

/// The value, the flag and the cycles with which a core's task has ended.
fn end_of(core: &Core) -> Option<(u32, u32, u64)> {
    match core.state() {
        CoreState::Done {
            value,
            flag,
            cycles,
        } => Some((value, flag, cycles)),
        _ => None,
    }
}

/// Compares the words of `out` that a core came to.
fn expect_out(
    rt: &impl Abort,
    alloc: Global,
    program: &Checked,
    core: &Core,
    told: &str,
) -> Result<(), Fail> {
    let out = out_of(alloc, program, core)?;
    let wanted = words(alloc, told)?;
    expect_same(rt, out.as_slice(), wanted.as_slice());
    Ok(())
}

/// Compares the value that a core came to, and that its accesses and its end are those of the core without an input,
/// the end within the bound.
fn expect_end(rt: &impl Abort, without: &Core, core: &Core, bound: u64, told: i32) {
    let (value, flag, cycles) = end_of(core).expect(rt, "its end");
    let (_, _, same) = end_of(without).expect(rt, "the end without an input");
    expect_same(rt, (value, flag), (told.cast_unsigned(), 0));
    expect_same(rt, (cycles, cycles <= bound), (same, true));
    expect_same(rt, core.trace().len() < ROOM as usize, true);
    expect_same(rt, core.trace(), without.trace());
}

/// Runs a kernel's task apart on an input, and compares.
fn expect_run(
    rt: &impl Abort,
    alloc: Global,
    place: &Place,
    compiled: &Compiled,
    without: &Core,
    told: &Run,
) -> Result<(), Fail> {
    let core = run(rt, alloc, compiled, place, told.input)?;
    expect_end(rt, without, &core, compiled.bound, told.value);
    expect_out(rt, alloc, &compiled.program, &core, told.out)
}

/// Runs a kernel's task apart on each input, and compares.
fn expect_runs(
    rt: &impl Abort,
    alloc: Global,
    place: &Place,
    compiled: &Compiled,
    runs: &[Run],
) -> Result<(), Fail> {
    let without = run(rt, alloc, compiled, place, "")?;
    for told in runs {
        expect_run(rt, alloc, place, compiled, &without, told)?;
    }
    Ok(())
}

/// Compiles a kernel, and compares its bound and its runs.
fn expect_kernel(
    rt: &impl Abort,
    alloc: Global,
    place: &Place,
    kernel: &Kernel,
) -> Result<(), Fail> {
    let compiled = compile(alloc, kernel.text, place)?;
    expect_same(rt, compiled.bound < kernel.straight, true);
    expect_runs(rt, alloc, place, &compiled, kernel.runs)
}

#[test]
fn cores_come_to_what_gcc_gives(rt: HostRuntime) -> Result<(), Fail> {
    let place = Place::new(1, 0, 6, 0).expect(&rt, "a place");
    for kernel in &KERNELS {
        expect_kernel(&rt, rt.alloc(), &place, kernel)?;
    }
    Ok(())
}

/// A filter that sends the word that it comes to, and its bound on the first of four cores with slots of 6 cycles, by a
/// schedule as of the kernels.
const FILTER: &str = "int in[64]; int h[16] = {1,1,1,1,1,1,1,1,1,1,1,1,1,1,1,1}; int out[1]; \
    int main() { int n = 0; int k = 0; int s = 0; \
    _Pragma(\"loopbound min 49 max 49\") for (n = 0; n < 49; n = n + 1) { s = 0; \
    _Pragma(\"loopbound min 16 max 16\") for (k = 0; k < 16; k = k + 1) { s = s + h[k] * in[n + k]; } } \
    comm[0] = s; send(2, 0, 0, 1); out[0] = s; return s; }";

const FILTER_STRAIGHT: u64 = 104_159;

#[test]
fn packed_code_has_a_lower_bound(rt: HostRuntime) -> Result<(), Fail> {
    let place = Place::new(4, 0, 6, 0).expect(&rt, "a place");
    let compiled = compile(rt.alloc(), FILTER, &place)?;
    expect_same(&rt, compiled.bound < FILTER_STRAIGHT, true);
    Ok(())
}

/// Four loops inside one another, whose iterations are more than 2^63.
const LONG: &str = "int main() { \
    _Pragma(\"loopbound min 0 max 65535\") while (1) { _Pragma(\"loopbound min 0 max 65535\") while (1) { \
    _Pragma(\"loopbound min 0 max 65535\") while (1) { _Pragma(\"loopbound min 0 max 65535\") while (1) { \
    } } } } return 0; }";

#[test]
fn texts_are_refused(rt: HostRuntime) {
    let place = Place::new(1, 0, 6, 0).expect(&rt, "a place");
    for (text, want) in [
        (
            "int main() { return 1 @ 2; }",
            CompileFault::Lex(LexFault::Char { at: 22 }),
        ),
        (
            "int main() { return 1 2; }",
            CompileFault::Parse(ParseFault::Syntax { at: 7 }),
        ),
        (
            "int main() { while (1) { } return 0; }",
            CompileFault::Check(CheckError::Fault {
                kind: CheckFault::NoBound,
                at: 5,
            }),
        ),
        (LONG, CompileFault::Long),
    ] {
        let fault = compile(rt.alloc(), text, &place).err();
        expect_same(&rt, (text, fault), (text, Some(want)));
    }
}
