//! The statuses with which a program ends.
ghost use Rattle.std.specs.Prelude.{◌≡◌};
ghost use Rattle.tc_io.specs.declared.status.TheConstants.{DONE, NO_COMMAND, FAULTY_TEXT, TASK_EARLY, TASK_REFUSED, READ_FAULT, WRITE_FAULT, MEMORY};

/// All that was asked was done.
pub const DONE: u8 = 0;

/// The words of the command line are no command.
pub const NO_COMMAND: u8 = 1;

/// The text is no job or no schedule, or the schedule has a fault.
pub const FAULTY_TEXT: u8 = 2;

/// All was reported, and a task was stopped or had not ended by the limit.
pub const TASK_EARLY: u8 = 3;

/// A task is refused.
pub const TASK_REFUSED: u8 = 4;

/// The source failed.
pub const READ_FAULT: u8 = 5;

/// The sink failed.
pub const WRITE_FAULT: u8 = 6;

/// Memory was refused.
pub const MEMORY: u8 = 7;

/// The statuses in numbers. A law: it does nothing.
pub fn statuses()
    ensures done { DONE ≡ 0 }
    ensures no_command { NO_COMMAND ≡ 1 }
    ensures faulty_text { FAULTY_TEXT ≡ 2 }
    ensures task_early { TASK_EARLY ≡ 3 }
    ensures task_refused { TASK_REFUSED ≡ 4 }
    ensures read_fault { READ_FAULT ≡ 5 }
    ensures write_fault { WRITE_FAULT ≡ 6 }
    ensures memory { MEMORY ≡ 7 }
{}
