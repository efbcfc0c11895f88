ghost use Rattle.std.specs.Prelude.{◌≡◌, ◌↔◌, true, false, IfOk, IsErr, option_map};
ghost use Rattle.std.specs.Result.{IsErrOf};
ghost use Rattle.patmos_instr.specs.Bundles.{FitsBundle};
ghost use Rattle.patmos_instr.specs.Instructions.{is_long, is_second_kind};

use crate::instructions::Instr;
use std::marker::Model;

/// Why two instructions are no bundle.
#[derive(Clone, Copy, Debug, PartialEq, Eq)]
pub enum SlotFault {
    /// The first is a long immediate operation, which fills a bundle by itself.
    FirstLong,
    /// The second is not of a kind for the second slot.
    SecondKind,
}

/// One instruction, or two that the processor carries out at once.
///
/// Its two instructions always go together: where there is a second one, the first is no long immediate
/// operation, and the second is an operation on registers or with a short immediate, a compare, or a
/// combination of predicates.
#[derive(Clone, Copy, Debug, PartialEq, Eq)]
pub struct Bundle {
    first: Instr,
    second: Option<Instr>,
}

impl Model for Bundle {
    ghost use Rattle.patmos_instr.specs.Bundles.{PlainBundle, FitsBundle};

    ghost Value = { PlainBundle };

    ghost view = { λ b. record { first = b.first; second = b.second } };

    ghost invariant = { λ b. FitsBundle (record { first = b.first; second = b.second }) };

    ghost inverse = { λ s. record { first = s.first; second = s.second } };
}

impl Bundle {
    /// The bundle of one instruction.
    pub fn single(first: Instr) -> Bundle
        ensures first { result.first ≡ first }
        ensures second { result.second ≡ None }
    {
        first.show_range();
        Bundle {
            first,
            second: None,
        }
    }

    /// The bundle of two instructions, or why they are none. A long immediate in the first slot is told
    /// before a wrong kind in the second.
    pub fn pair(first: Instr, second: Instr) -> Result<Bundle, SlotFault>
        ensures bundle { IfOk result (λ b. (b.first ≡ first) × (b.second ≡ Some second)) }
        ensures first_long { IsErrOf result SlotFault.FirstLong ↔ (is_long first.op ≡ true) }
        ensures second_kind { IsErrOf result SlotFault.SecondKind ↔
            ((is_long first.op ≡ false) × (is_second_kind second.op ≡ false)) }
    {
        if first.op.is_long() {
            return Err(SlotFault::FirstLong);
        }
        if !second.op.is_second_kind() {
            return Err(SlotFault::SecondKind);
        }
        first.show_range();
        second.show_range();
        Ok(Bundle {
            first,
            second: Some(second),
        })
    }

    /// The instruction of the first slot.
    pub fn first(&self) -> Instr
        ensures value { result ≡ self.now.first }
        ensures bundle { FitsBundle self.now }
    {
        self.first
    }

    /// The instruction of the second slot, where there is one.
    pub fn second(&self) -> Option<Instr>
        ensures value { result ≡ self.now.second }
        ensures bundle { FitsBundle self.now }
    {
        self.second
    }

    /// The instruction of the first slot, to be looked at where it stands.
    #[inline(always)]
    pub fn first_slot(&self) -> &Instr
        ensures value { result.now ≡ self.now.first }
        ensures bundle { FitsBundle self.now }
    {
        &self.first
    }

    /// The instruction of the second slot, where there is one, to be looked at where it stands.
    #[inline(always)]
    pub fn second_slot(&self) -> Option<&Instr>
        ensures value { option_map (λ i. i.now) result ≡ self.now.second }
        ensures bundle { FitsBundle self.now }
    {
        self.second.as_ref()
    }
}
