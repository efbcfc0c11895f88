//! Why tasks are refused.
ghost use Rattle.std.specs.Prelude.{◌≡◌, ◌++◌, IfOk, OnOk};
ghost use Rattle.job_tasks.specs.Tasks as specs;
ghost use Rattle.job_tasks.specs.Answer as answers;

use crate::answers::Answer;
use c_check::CheckError;
use c_compile::CompileFault;
use c_lex::LexFault;
use c_parse::ParseFault;
use c_tree::{CheckFault, Fault};
use patmos_asm::{AsmFault, AsmKind};
use std::alloc::Global;
use tc_io::{TASK_REFUSED, put_number};
use tc_report::put_core_name;
use tc_word::{List, OutOfMemory};

/// Why a task is refused.
#[derive(Clone, Copy, Debug, PartialEq, Eq)]
pub enum Refusal {
    /// Its text is no assembly.
    Faulty(AsmFault),
    /// No token of C begins at this byte of its text.
    Char { at: u32 },
    /// A number that begins at this byte of its text is above 2^32 - 1.
    Wide { at: u32 },
    /// Its tokens are no program: so many of the first ones can go on, and no more.
    Syntax { at: u32 },
    /// It is a program that breaks a rule: its least fault.
    Invalid(Fault),
    /// It is a valid program that may take more cycles than a bound may have.
    Long,
}

impl From<CompileFault> for Halt<Refusal> {
    ghost use Rattle.std.specs.Prelude.{◌≡◌};
    ghost use Rattle.job_tasks.specs.Gives.{of_fault};

    ghost from_gives = { λ fault halt. halt ≡ of_fault fault };

    fn from(fault: CompileFault) -> Halt<Refusal> {
        match fault {
            CompileFault::Lex(LexFault::Char { at }) => Halt::Refused(Refusal::Char { at }),
            CompileFault::Lex(LexFault::Wide { at }) => Halt::Refused(Refusal::Wide { at }),
            CompileFault::Parse(ParseFault::Syntax { at }) => Halt::Refused(Refusal::Syntax { at }),
            CompileFault::Check(CheckError::Fault { kind, at }) => {
                Halt::Refused(Refusal::Invalid(Fault { at, kind }))
            }
            CompileFault::Long => Halt::Refused(Refusal::Long),
            _ => Halt::Memory,
        }
    }
}

/// Why a job is refused for the task of a core.
#[derive(Clone, Copy, Debug, PartialEq, Eq)]
pub struct CoreRefusal {
    pub core: u32,
    pub refusal: Refusal,
}

/// Why a call did not give what was asked for.
#[derive(Clone, Copy, Debug, PartialEq, Eq)]
pub enum Halt<R> {
    Refused(R),
    Memory,
}

impl<R> From<OutOfMemory> for Halt<R> {
    ghost use Rattle.std.specs.Prelude.{◌≡◌};
    ghost use Rattle.job_tasks.specs.declared.refusal.Halt.TheVariants.{Memory};

    ghost from_gives = { λ _ e. e ≡ Memory };

    fn from(_refused: OutOfMemory) -> Halt<R> {
        Halt::Memory
    }
}

/// The answer to a job that is refused for the task of a core.
pub fn refusal_answer(alloc: Global, refused: CoreRefusal) -> Result<Answer, OutOfMemory>
    ensures { IfOk result (λ answer. answer ≡ answers.no_task refused) }
{
    let mut text = Vec::new(alloc);
    put_core_name(&mut text, u64::from(refused.core))?;
    text.extend_from_slice(b": ")?;
    put_refusal(&mut text, refused.refusal)?;
    text.extend_from_slice(b"\n")?;
    let text = List::of(text);
    Ok(Answer {
        status: TASK_REFUSED,
        text,
    })
}

fn put_refusal(text: &mut Vec<u8>, refusal: Refusal) -> Result<(), OutOfMemory>
    ensures { OnOk result (text.new.items ≡ text.old.items ++ specs.refusal_text refusal) }
{
    match refusal {
        Refusal::Long => text.extend_from_slice(b"Long"),
        Refusal::Char { at } => put_place(text, b"Char", at),
        Refusal::Wide { at } => put_place(text, b"Wide", at),
        Refusal::Syntax { at } => put_place(text, b"Syntax", at),
        Refusal::Invalid(fault) => put_place(text, check_name(fault.kind), fault.at),
        Refusal::Faulty(fault) => {
            text.extend_from_slice(name_of(fault.fault))?;
            text.extend_from_slice(b" line ")?;
            put_number(text, u64::from(fault.line))
        }
    }
}

// a fault and its place in the text
fn put_place(text: &mut Vec<u8>, name: &[u8], at: u32) -> Result<(), OutOfMemory>
    ensures { OnOk result (text.new.items ≡ text.old.items ++ specs.at_place name.now at) }
{
    text.extend_from_slice(name)?;
    text.extend_from_slice(b" at ")?;
    put_number(text, u64::from(at))
}

fn name_of(fault: AsmKind) -> &'static [u8]
    ensures { result.now ≡ specs.fault_name fault }
{
    match fault {
        AsmKind::Mnemonic => b"Mnemonic",
        AsmKind::Operand => b"Operand",
        AsmKind::Range => b"Range",
        AsmKind::Slot => b"Slot",
        AsmKind::NoLabel => b"NoLabel",
        AsmKind::LabelTwice => b"LabelTwice",
        AsmKind::TooLarge => b"TooLarge",
        AsmKind::NoFunction => b"NoFunction",
    }
}

fn check_name(fault: CheckFault) -> &'static [u8]
    ensures { result.now ≡ specs.check_name fault }
{
    match fault {
        CheckFault::Unknown => b"Unknown",
        CheckFault::Twice => b"Twice",
        CheckFault::WrongType => b"WrongType",
        CheckFault::NoBound => b"NoBound",
        CheckFault::BoundRange => b"BoundRange",
        CheckFault::Recursion => b"Recursion",
        CheckFault::Params => b"Params",
        CheckFault::Deep => b"Deep",
        CheckFault::Frame => b"Frame",
        CheckFault::Heavy => b"Heavy",
        CheckFault::Data => b"Data",
        CheckFault::Scratch => b"Scratch",
        CheckFault::Target => b"Target",
        CheckFault::NoMain => b"NoMain",
    }
}
