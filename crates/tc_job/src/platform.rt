ghost use Rattle.std.specs.Prelude.{◌≡◌, ◌≤◌, IfOk, IsTrue, codes};
ghost use Rattle.slot_arbiter.specs.Table.{is_table};
ghost use Rattle.toml.specs.Data.{get_member};
ghost use Rattle.toml.specs.View.{table_view};
ghost use Rattle.tc_toml.specs.Fault.{Gives};
ghost use Rattle.tc_job.specs.Job as specs;
ghost use Rattle.tc_job.specs.Ranges.{IsPlatform};
ghost use Rattle.tc_toml.specs.Values.{Reads};
ghost use Rattle.slot_arbiter.specs.declared.place.TheConstants.{LEAST_SLOT, MOST_SLOT};
ghost use Rattle.slot_arbiter.specs.declared.table.TheConstants.{MOST_CORES};

use crate::slots::{slot_table, table_in_turn};
use slot_arbiter::{LEAST_SLOT, MOST_CORES, MOST_SLOT};
use tc_toml::{JobError, Refusal, Section};
use tc_word::List;

/// What a job says of the platform.
#[derive(Drop)]
pub struct Platform {
    pub version: u32,
    pub cores: u32,
    pub slot: u32,
    pub table: List<u32>,
}

/// The platform of a job.
#[tactic(auto, unfolding(crate::specs::Job::platform_in))]
pub fn platform_in(top: &Section<'_>) -> Result<Platform, JobError>
    requires { top.now.task ≡ None }
    ensures platform { Gives (λ platform. platform) result (specs.platform_in (table_view top.now.table.now)) }
    ensures ranges { IfOk result (λ p. IsPlatform p.version p.cores p.slot p.table) }
{
    let version = top.number("version", 1, 2)?;
    let cores = top.number("cores", 1, most_cores(version))?;
    let slot = top.number("slot", LEAST_SLOT, MOST_SLOT)?;
    let table = top.reported("table", table_in(top, version, cores, slot))?;
    Ok(Platform {
        version,
        cores,
        slot,
        table,
    })
}

/// The most cores of a job of a version.
fn most_cores(version: u32) -> u32
    ensures value { result ≡ specs.most_cores version }
    ensures most { result ≤ MOST_CORES }
{
    if version == 2 { MOST_CORES } else { 8 }
}

/// The slot table of a job: stated in version 2, and the cores in turn in version 1.
fn table_in(top: &Section<'_>, version: u32, cores: u32, slot: u32) -> Result<List<u32>, Refusal>
    requires some { 1 ≤ cores }
    requires most { cores ≤ MOST_CORES }
    requires slot_least { LEAST_SLOT ≤ slot }
    requires slot_most { slot ≤ MOST_SLOT }
    ensures table { Reads (λ entries. entries) result
        (specs.table_in version cores (get_member (codes "table") (table_view top.now.table.now))) }
    ensures fits { IfOk result (λ entries. IsTrue (is_table cores entries)) }
{
    if version == 2 {
        slot_table(top.alloc, top.value("table"), cores)
    } else {
        Ok(table_in_turn(top.alloc, cores, slot)?)
    }
}
