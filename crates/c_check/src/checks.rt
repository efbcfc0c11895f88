//! The check of a program.
ghost use Rattle.std.specs.Prelude.{◌≡◌, None, IfOk, IfErr};
ghost use Rattle.c_tree.specs.Plain.{plain};
ghost use Rattle.c_tree.specs.Valid.{fault_of};
ghost use Rattle.c_tree.specs.Layout.{layout_of};
ghost use Rattle.c_check.specs.Reported.{TellsFault};

use crate::layouts::layout;
use crate::units::least_fault;
use c_tree::{CheckFault, Checked, Unit};
use slot_arbiter::Place;
use std::alloc::Global;

/// Why a program is refused.
#[derive(Clone, Copy, Debug, PartialEq, Eq)]
pub enum CheckError {
    /// A fault, and the number of the token where it is, from 0.
    Fault { kind: CheckFault, at: u32 },
    /// Want of memory, or a program of 2^32 tokens or more.
    Memory,
}

/// The program with its place and its layout, where it is valid on the place; else its least fault.
#[tactic(auto, using(c_tree::proofs::Leasts::none_least))]
pub fn check(alloc: Global, unit: Unit, place: &Place) -> Result<Checked, CheckError>
    ensures unit { IfOk result (λ c. c.unit ≡ unit) }
    ensures place { IfOk result (λ c. c.place ≡ place.now) }
    ensures valid { IfOk result (λ c. fault_of (plain unit) place.now.cores place.now.core ≡ None) }
    ensures layout { IfOk result (λ c. c.layout ≡ layout_of (plain unit)) }
    ensures fault { IfErr result (λ e. TellsFault e unit place.now) }
{
    let least = match least_fault(alloc, &unit, place) {
        Ok(least) => least,
        Err(_) => return Err(CheckError::Memory),
    };
    if let Some(fault) = least {
        return Err(CheckError::Fault {
            kind: fault.kind,
            at: fault.at,
        });
    }
    match layout(alloc, unit.items.as_slice()) {
        Ok(layout) => Ok(Checked {
            unit,
            place: *place,
            layout,
        }),
        Err(_) => Err(CheckError::Memory),
    }
}
