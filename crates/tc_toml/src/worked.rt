ghost use Rattle.std.specs.Prelude.{◌≡◌, [], codes};
ghost use Rattle.tc_toml.specs.Fault.{fault_text};

use crate::fault::JobFault;

/// The lines in which faults are reported: at the top level, in a task, and of what is no TOML at all.
pub fn faults_worked()
    ensures at_the_top { fault_text JobFault.Missing None (codes "version") ≡ codes "job: Missing version" }
    ensures in_a_task { fault_text JobFault.CoreTwice (Some 1) (codes "core") ≡ codes "job: CoreTwice task 1 core" }
    ensures no_text { fault_text JobFault.Toml None [] ≡ codes "job: Toml" }
{}
