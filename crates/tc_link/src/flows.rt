//! Flows that get their targets.
ghost use Rattle.std.specs.Prelude.{◌≡◌, pos, ◌-ℤ◌, ◌≤◌, false};
ghost use Rattle.patmos_code.specs.declared.images.TheConstants.{MOST_IN_FUNCTION};
ghost use Rattle.patmos_instr.specs.Instructions.{is_long};
ghost use Rattle.tc_link.specs.Flat as specs;

use patmos_instr::{Addr22, Bundle, Instr, Off22, Op};

// the bundle with another operation in its first slot
fn with_op(bundle: &Bundle, op: Op) -> Bundle
    requires short { is_long op ≡ false }
    ensures { result ≡ specs.with_op op bundle.now }
{
    let first = Instr {
        guard: bundle.first().guard,
        op,
    };
    match bundle.second() {
        None => Bundle::single(first),
        Some(second) => match Bundle::pair(first, second) {
            Ok(bundle) => bundle,
            Err(_) => unreachable!(),
        },
    }
}

// so many words back
fn back(words: u32) -> Off22
    requires { words ≤ MOST_IN_FUNCTION }
    ensures { result ≡ pos 0 -ℤ pos words }
{
    match Off22::new(0 - words as i32) {
        Some(offset) => offset,
        None => unreachable!(),
    }
}

/// A call, of the function that starts at a word; any other bundle as it is.
pub fn call_to(start: Addr22, bundle: &Bundle) -> Bundle
    ensures { result ≡ specs.call_to start bundle.now }
{
    match bundle.first().op {
        Op::Call { .. } => with_op(bundle, Op::Call { target: start }),
        _ => *bundle,
    }
}

/// A branch, so many words back; any other bundle as it is.
pub fn branch_back(behind: u32, bundle: &Bundle) -> Bundle
    requires { behind ≤ MOST_IN_FUNCTION }
    ensures { result ≡ specs.branch_back behind bundle.now }
{
    match bundle.first().op {
        Op::Branch { .. } => with_op(
            bundle,
            Op::Branch {
                offset: back(behind),
            },
        ),
        _ => *bundle,
    }
}
