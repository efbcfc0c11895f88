ghost use Rattle.std.specs.Prelude.{◌≡◌, ◌-◌, ◌^◌, [], ◌∷◌, codes, pos, negsuc};
ghost use Rattle.toml.specs.Data.{integer, member, no_members};
ghost use Rattle.tc_job.specs.Input.{word_of};
ghost use Rattle.tc_job.specs.Job.{job_in};
ghost use Rattle.tc_job.specs.SlotTable.{table_of};

use tc_toml::JobFault;

/// The definitions at work: the ends of the range of an input's values and their words, slot tables, and
/// which of several faults is the first.
#[tactic(auto, unfolding(crate::specs::Job::job_in, crate::specs::Job::platform_in))]
pub fn jobs_worked()
    ensures minus_one { word_of (negsuc 0) ≡ Some (2 ^ 32 - 1) }
    ensures least_word { word_of (negsuc (2 ^ 31 - 1)) ≡ Some (2 ^ 31) }
    ensures below_least { word_of (negsuc (2 ^ 31)) ≡ None }
    ensures most_word { word_of (pos (2 ^ 32 - 1)) ≡ Some (2 ^ 32 - 1) }
    ensures above_most { word_of (pos (2 ^ 32)) ≡ None }

    ensures table { table_of 3 (pos 0 ∷ pos 1 ∷ pos 0 ∷ pos 2 ∷ []) ≡ Ok (0 ∷ 1 ∷ 0 ∷ 2 ∷ []) }
    ensures core_left_out { table_of 2 (pos 0 ∷ pos 0 ∷ []) ≡ Err JobFault.Range }
    ensures negative_core { table_of 1 (negsuc 0 ∷ []) ≡ Err JobFault.Range }

    ensures empty { job_in no_members ≡ Err (record { kind = JobFault.Missing; task = None; key = codes "version" }) }
    ensures unknown_first { job_in (member (codes "zeta") (integer (pos 1)) no_members)
        ≡ Err (record { kind = JobFault.Key; task = None; key = codes "zeta" }) }
    ensures table_of_no_version { job_in
        (member (codes "table") (integer (pos 0)) (member (codes "version") (integer (pos 3)) no_members))
        ≡ Err (record { kind = JobFault.Key; task = None; key = codes "table" }) }
    ensures version_of_no_job { job_in (member (codes "version") (integer (pos 3)) no_members)
        ≡ Err (record { kind = JobFault.Range; task = None; key = codes "version" }) }
{}
