//! Laws.
ghost use Rattle.std.specs.Prelude.{◌≡◌};
ghost use Rattle.job_tasks.specs.Answer.{text_fault_number};
ghost use Rattle.job_tasks.specs.declared.calls.TextFault.TheVariants.{TooLong};

use crate::calls::MOST_BYTES;

/// The numbers that answers cite. A law: it does nothing.
pub fn limits()
    ensures bytes { MOST_BYTES ≡ 1048576 }
    ensures too_long { text_fault_number TooLong ≡ 1 }
{}
