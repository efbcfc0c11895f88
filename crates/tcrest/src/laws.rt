ghost use Rattle.std.specs.Prelude.{◌≡◌, ℕ, ◌<◌, ◌≤◌, ◌↔◌, List, [], ◌∷◌, Some, Ok, length, codes};
ghost use Rattle.std.specs.List.{AllByRecursion as Each};
ghost use Rattle.tc_job.specs.Job.{job_of};
ghost use Rattle.tc_job.specs.declared.job.Job.{Job as JobParts};
ghost use Rattle.c_meaning.specs.Small as small;
ghost use Rattle.c_tree.specs.declared.tokens.Token.{Token};
ghost use Rattle.c_tree.specs.Places.{IsProgram};
ghost use Rattle.c_tree.specs.Reading.{IsReading};
ghost use Rattle.c_parse.specs.Tree.{tree_of};
ghost use Rattle.tc_report.specs.Line.{line};
ghost use Rattle.tcrest.specs.declared.command.Command.{Command};
ghost use Rattle.tcrest.specs.declared.command.TheConstants.{MOST_DIGITS};
ghost use Rattle.tcrest.specs.declared.command.Command.TheVariants.{OfJob, Grid, Gen, Bench, Usage};
ghost use Rattle.tcrest.specs.declared.command.JobCommand.TheVariants.{Run, Bound, Asm, Mean, Pipe, Persist};
ghost use Rattle.job_tasks.specs.Answer.{too_long};
ghost use Rattle.tcrest.specs.Answer.{answer, bytes_answer, usage};
ghost use Rattle.tcrest.specs.Command.{command_of, number_in};
ghost use Rattle.tcrest.specs.Complete.{HasCode, IsWhole};
ghost use Rattle.tcrest.specs.Meanings.{program_lines};
ghost use Rattle.tcrest.specs.Pipe.{fault_number};
ghost use Rattle.tcrest.specs.declared.pipe.PipeFault.TheVariants.{OneCore};

use job_tasks::MOST_BYTES;

/// When the answers of usage and of a text that is too long come.
pub fn refusals_in_order()
    // Status 1 comes exactly where the words are no command.
    ensures usage { (words : List (List ℕ)) (bytes : List ℕ)
        → ((answer words bytes).status ≡ 1) ↔ (command_of words ≡ Usage) }
    ensures run { (words : List (List ℕ)) → (command_of words ≡ OfJob Run) ↔ (words ≡ codes "run" ∷ []) }
    ensures bound { (words : List (List ℕ)) → (command_of words ≡ OfJob Bound) ↔ (words ≡ codes "bound" ∷ []) }
    ensures asm { (words : List (List ℕ)) → (command_of words ≡ OfJob Asm) ↔ (words ≡ codes "asm" ∷ []) }
    ensures mean { (words : List (List ℕ)) → (command_of words ≡ OfJob Mean) ↔ (words ≡ codes "mean" ∷ []) }
    ensures pipe { (words : List (List ℕ)) → (command_of words ≡ OfJob Pipe) ↔ (words ≡ codes "pipe" ∷ []) }
    ensures persist { (words : List (List ℕ)) → (command_of words ≡ OfJob Persist) ↔ (words ≡ codes "persist" ∷ []) }
    ensures grid { (words : List (List ℕ)) → (command_of words ≡ Grid) ↔ (words ≡ codes "grid" ∷ []) }
    ensures generated { (word digits : List ℕ) (number : ℕ)
        → (command_of (word ∷ digits ∷ []) ≡ Gen number) ↔ ((word ≡ codes "gen") × (number_in digits ≡ Some number)) }
    ensures bench { (word digits : List ℕ) (number : ℕ)
        → (command_of (word ∷ digits ∷ []) ≡ Bench number)
        ↔ ((word ≡ codes "bench") × (number_in digits ≡ Some number)) }

    // A text is too long exactly where it has more than `MOST_BYTES` bytes.
    ensures too_long { (command : Command) (bytes : List ℕ)
        → (bytes_answer command bytes ≡ too_long) ↔ (MOST_BYTES < length bytes) }
{}

/// A job is reported whole under `run`, where its bytes are not too many and each of its tasks has code:
/// nothing else is answered. A law: it does nothing.
#[tactic(auto, using(crate::proofs::Complete::reported_whole))]
pub fn jobs_with_code_are_reported()
    ensures { (bytes : List ℕ) (job : JobParts) → length bytes ≤ MOST_BYTES → job_of bytes ≡ Ok job
        → Each (HasCode job) job.tasks
        → IsWhole job (answer (codes "run" ∷ []) bytes) }
{}

/// The trees that the answer speaks of are a reading: those of programs are the ones that they are written by, and
/// other tokens have none. A law: it does nothing.
#[tactic(auto, using(c_parse::proofs::Reading::trees_read, c_parse::proofs::Reading::no_tree))]
pub fn trees_are_a_reading()
    ensures programs { IsReading tree_of }
    ensures others { (ts : List Token) → (IsProgram ts → ⊥) → tree_of ts ≡ [] }
{}

/// The numbers that the answer cites. A law: it does nothing.
pub fn limits()
    ensures one_core { fault_number OneCore ≡ 9 }
    ensures digits { MOST_DIGITS ≡ 10 }
{}

/// What `mean` tells of small programs: a sum, the same cut off by its bound, and an input.
pub fn worked_meanings()
    ensures sum { program_lines 0 [] (small.sum_program 10) ≡ line (codes "core 0 mean 45") }
    ensures cut_off { program_lines 1 [] (small.sum_program 5) ≡ line (codes "core 1 mean 10 overrun") }
    ensures input { program_lines 0 (8 ∷ 9 ∷ []) small.input_program ≡ line (codes "core 0 mean 9") }
{}
