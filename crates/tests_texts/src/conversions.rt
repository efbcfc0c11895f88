//! That valid texts are converted to single-path trees, which no clause can say: want of memory may come at any time.
//! What the trees come to stands beside what the texts mean.
use crate::checks::checked;
use crate::expect::expect_same;
use crate::kernels::{KERNELS, Kernel};
use c_run::{Outcome, mean};
use c_tree::{Checked, Slot};
use local_store::Cell;
use single_path::convert;
use sp_tree::{SpOutcome, plain_straight};
use std::alloc::Global;
use std::process::Abort;
use std::test::Fail;
use tc_word::List;

/// What a text means, what its tree comes to, and where its variables and arrays stand.
#[derive(Drop)]
struct Compared {
    meant: Outcome,
    came: SpOutcome,
    layout: List<Slot>,
}

/// What the tree of a program comes to.
fn tree_of(alloc: Global, program: &Checked, input: &[u32]) -> Option<SpOutcome> {
    let Ok(unit) = convert(alloc, program) else {
        return None;
    };
    plain_straight(alloc, &unit, input).ok()
}

fn compare(alloc: Global, text: &str, input: &[u32]) -> Option<Compared> {
    let program = checked(alloc, text)?;
    let came = tree_of(alloc, &program, input)?;
    let meant = mean(alloc, &program, input).ok()?;
    Some(Compared {
        meant,
        came,
        layout: program.layout,
    })
}

/// The memory in which a slot stands, and its first word there.
fn words_of<'a>(came: &'a SpOutcome, slot: &Slot) -> Option<(&'a [u32], usize)> {
    match slot.cell {
        Cell::Private(word) => Some((came.private.as_slice(), word as usize)),
        Cell::Scratch(word) => Some((came.scratch.as_slice(), word as usize)),
        Cell::Comm(word) => Some((came.comm.as_slice(), word as usize)),
        Cell::Shared(word) => Some((came.shared.as_slice(), word as usize)),
        Cell::Port { .. } => None,
    }
}

/// Whether a memory has these words from one on.
fn has_words(memory: &[u32], first: usize, words: &[u32]) -> bool {
    let mut at = first;
    for word in words {
        if memory.get(at) != Some(word) {
            return false;
        }
        at = at.saturating_add(1);
    }
    true
}

/// The tree gives what is meant: value, flag, and all words of variables and arrays.
fn is_meant(both: &Compared) -> bool {
    let mut number = 0usize;
    for slot in both.layout.as_slice() {
        let Some(store) = both.meant.stores.as_slice().get(number) else {
            return false;
        };
        let Some((memory, first)) = words_of(&both.came, slot) else {
            return false;
        };
        if !has_words(memory, first, store.as_slice()) {
            return false;
        }
        number = number.saturating_add(1);
    }
    both.came.value == both.meant.value && both.came.overrun == both.meant.overrun
}

/// The words of the array `out`.
fn out_of<'a>(both: &'a Compared) -> &'a [u32] {
    let mut number = 0usize;
    for slot in both.layout.as_slice() {
        if slot.name.as_str() == "out" {
            if let Some(store) = both.meant.stores.as_slice().get(number) {
                return store.as_slice();
            }
        }
        number = number.saturating_add(1);
    }
    &[]
}

const SUM: &str =
    "int main() { int s = 0; int i = 0; _Pragma(\"loopbound min 10 max 10\") while (i < 10) { s = s + i; i = i + 1; } return s; }";

const CUT_OFF: &str =
    "int main() { int s = 0; int i = 0; _Pragma(\"loopbound min 5 max 5\") while (i < 10) { s = s + i; i = i + 1; } return s; }";

const UNDEFINED: &str =
    "int out[6]; int main() { out[0] = -7 / 2; out[1] = -7 % 2; out[2] = 5 / 0; out[3] = 5 % 0; out[4] = (0 - 2147483647 - 1) / -1; out[5] = 1 << 33; return 0; }";

const ENDLESS: &str = "int main() { _Pragma(\"loopbound min 0 max 0\") while (1) { } return 0; }";

const MASKED: &str =
    "int in[2]; int a[4]; int out[2]; int main() { int n = in[0]; if (in[1]) { a[n] = 1; } out[0] = a[n]; out[1] = a[-1]; return a[0]; }";

const CALLS: &str =
    "int g; int f(int a, int b) { if (a < b) { g = g + 1; return b - a; } return a - b; } int main() { int x = f(3, 8); int y = f(x, 2); g = y + g; if (g > 100) { x = f(1, 2); } return x * 100 + g; }";

const COUNTED: &str =
    "int main() { int s = 0; int i; _Pragma(\"loopbound min 0 max 4\") for (i = 2; i <= 11; i = i + 3) { s = s * 10 + i; } return s + i; }";

const SET_INSIDE: &str =
    "int main() { int s = 0; int i; _Pragma(\"loopbound min 0 max 5\") for (i = 0; i < 5; i = i + 1) { s = s + i; i = i + 1; } return s * 10 + i; }";

const COUNTED_IN_AN_ARM: &str =
    "int in[2]; int main() { int s = 1; int i = 9; if (in[1]) { _Pragma(\"loopbound min 3 max 3\") for (i = 0; i < 3; i = i + 1) { s = s + s; } } return s * 10 + i; }";

/// The value that the tree of a text comes to, whether it has an overrun, and whether all is as is meant.
fn outcome(alloc: Global, text: &str, input: &[u32]) -> Option<(u32, bool, bool)> {
    let both = compare(alloc, text, input)?;
    Some((both.came.value, both.came.overrun, is_meant(&both)))
}

#[test]
fn small_programs_come_to_what_they_mean(rt: HostRuntime) {
    for (text, input, value, overrun) in [
        (SUM, [0u32, 0], 45u32, false),
        (CUT_OFF, [0, 0], 10, true),
        (UNDEFINED, [0, 0], 0, false),
        (ENDLESS, [0, 0], 0, true),
        (MASKED, [0, 1], 1, false),
        (MASKED, [9, 0], 0, false),
        (CALLS, [0, 0], 504, false),
        (COUNTED, [0, 0], 2605, false),
        (SET_INSIDE, [0, 0], 66, false),
        (COUNTED_IN_AN_ARM, [0, 0], 19, false),
        (COUNTED_IN_AN_ARM, [0, 1], 83, false),
    ] {
        let came = outcome(rt.alloc(), text, &input);
        expect_same(&rt, (text, came), (text, Some((value, overrun, true))));
    }
}

/// Compares what the tree of a kernel comes to with what gcc gives, and with what is meant.
fn expect_kernel(rt: &impl Abort, alloc: Global, kernel: &Kernel) {
    let both = compare(alloc, kernel.text, kernel.input).expect(rt, kernel.text);
    let came = (kernel.text, both.came.value, is_meant(&both));
    expect_same(rt, came, (kernel.text, kernel.value, true));
    expect_same(rt, out_of(&both), kernel.out);
}

#[test]
fn kernels_come_to_what_gcc_gives(rt: HostRuntime) {
    for kernel in &KERNELS {
        expect_kernel(&rt, rt.alloc(), kernel);
    }
}

/// Ways out of an arm in a loop, of an `else` in an inner loop, and after that loop.
const EXITS: [&str; 4] = ["", "break;", "continue;", "return s;"];

/// A loop in a loop, left in three places.
fn nested(alloc: Global, exits: [&str; 3], bounds: [&str; 2]) -> Result<String, Fail> {
    let mut text = String::new(alloc);
    for piece in [
        "int in[3]; int main() { int s = 0; int i = 0; int j = 0; _Pragma(\"loopbound min 0 max ",
        bounds[0],
        "\") while (i < 4) { i = i + 1; j = 0; if (i == in[0]) { s = s + 1; ",
        exits[0],
        " } else if (i == in[1]) { s = s + 2; } s = s + 16; _Pragma(\"loopbound min 0 max ",
        bounds[1],
        "\") for (j = 0; j < 3; j = j + 1) { if (j < in[2]) { s = s + 256; } else { ",
        exits[1],
        " s = s + 4096; } s = s + 65536; } ",
        exits[2],
        " } return s + 1048576 * i; }",
    ] {
        text.push_str(piece)?;
    }
    Ok(text)
}

/// Whether trees with these exits come to what is meant, under several bounds and on several inputs.
fn exits_are_meant(alloc: Global, exits: [&str; 3]) -> Result<bool, Fail> {
    for bounds in [["4", "3"], ["2", "3"], ["4", "0"], ["0", "2"]] {
        let text = nested(alloc, exits, bounds)?;
        for input in [[0, 0, 0], [1, 2, 3], [2, 1, 1], [3, 4, 2], [9, 3, 9]] {
            let Some((_, _, true)) = outcome(alloc, text.as_str(), &input) else {
                return Ok(false);
            };
        }
    }
    Ok(true)
}

#[test]
fn nested_exits_come_to_what_they_mean(rt: HostRuntime) -> Result<(), Fail> {
    for first in EXITS {
        for second in EXITS {
            for third in EXITS {
                let exits = [first, second, third];
                let meant = exits_are_meant(rt.alloc(), exits)?;
                expect_same(&rt, (exits, meant), (exits, true));
            }
        }
    }
    Ok(())
}
