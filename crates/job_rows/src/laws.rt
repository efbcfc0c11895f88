//! Laws.
ghost use Rattle.std.specs.Prelude.{◌≡◌, List, [], ◌∷◌, map, false};
ghost use Rattle.patmos_model.specs.State.{Core};
ghost use Rattle.global_step.specs.Loaded.{Machine};
ghost use Rattle.global_step.specs.Machine.{at_limit};
ghost use Rattle.tc_job.specs.declared.job.Job.{Job as JobParts};
ghost use Rattle.tc_report.specs.declared.rows.RowState.TheVariants.{Limit, Done};
ghost use Rattle.job_rows.specs.Loading.{IsLoadedFor};
ghost use Rattle.job_rows.specs.Machine.{machine_of};
ghost use Rattle.job_rows.specs.Rows.{status_of};
ghost use Rattle.job_rows.specs.Worked.{lone_rows};

/// The rows of a small job, computed by the checker: its task ends at cycle 17, after two transactions.
#[tactic(auto, unfolding(crate::specs::Machine::machine_of, patmos_code::specs::Codes::code, patmos_code::specs::Decoding::bundle_at, patmos_model::specs::Flows::flowed, patmos_model::specs::Checks::fault_of, patmos_model::specs::Bundle::fetched_at, patmos_model::specs::Transaction::transaction))]
pub fn worked_run()
    ensures done { map (λ row. row.state) (lone_rows 17) ≡ Done 7 17 ∷ [] }
    ensures accesses { map (λ row. row.accesses) (lone_rows 17) ≡
        (record { cycle = 0; write = false; words = 4 } ∷ record { cycle = 6; write = false; words = 2 } ∷ []) ∷ [] }
    ensures limit { map (λ row. row.state) (lone_rows 16) ≡ Limit ∷ [] }
    ensures status { status_of (lone_rows 17) ≡ 0 }
    ensures early { status_of (lone_rows 16) ≡ 3 }
{}

/// A machine that was loaded with the cores of a job, and its numbers, is the job's machine. A law: it does
/// nothing.
pub fn loaded_machine_is_the_jobs()
    ensures { (job : JobParts) (cores : List Core) (m : Machine) → IsLoadedFor job cores m
        → at_limit m ≡ machine_of job cores }
{}
