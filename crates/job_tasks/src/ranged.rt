//! Jobs whose numbers are in their ranges.
ghost use Rattle.std.specs.Prelude.{◌≡◌, ◌<◌, ◌≤◌};
ghost use Rattle.slot_arbiter.specs.Slot.{period};
ghost use Rattle.patmos_code.specs.Images.{Parts};
ghost use Rattle.patmos_model.specs.Apart.{site_of};
ghost use Rattle.tc_job.specs.Ranges.{KeepsRanges};
ghost use Rattle.job_tasks.specs.Sites.{site_on};

use slot_arbiter::{LATEST_START, Place, Table};
use std::marker::Model;
use tc_job::Job;

/// A job whose numbers are in their ranges, and whose tasks each have a core of their own, as in every job that is
/// read.
#[derive(Drop)]
pub struct RangedJob {
    job: Job,
    // the job's slot table, tested once
    table: Table,
}

impl Model for RangedJob {
    ghost use Rattle.std.specs.Prelude.{◌≡◌};
    ghost use Rattle.tc_job.specs.declared.job.Job as jobs;
    ghost use Rattle.tc_job.specs.Ranges.{KeepsRanges};

    ghost Value = { jobs.Job };

    ghost view = { λ r. r.job };

    ghost invariant = { λ r. KeepsRanges r.job × (r.table ≡ r.job.table) };
}

impl RangedJob {
    /// The job that this one is, which is in its ranges.
    pub fn of(job: Job) -> RangedJob
        requires { KeepsRanges job }
        ensures { result ≡ job }
    {
        let Some(table) = Table::new(job.table.as_slice(), job.cores) else {
            unreachable!()
        };
        RangedJob { job, table }
    }

    /// The job.
    pub fn job(&self) -> &Job
        ensures same { result.now ≡ self.now }
        ensures ranges { KeepsRanges self.now }
    {
        &self.job
    }

    /// Its numbers are in their ranges.
    pub fn keeps_ranges(&self)
        ensures { KeepsRanges self.now }
    {
        let _job = &self.job;
    }

    /// How many cycles the period of its slot table has.
    #[tactic(auto, using(crate::proofs::Periods::few_entries))]
    pub fn period(&self) -> u32
        ensures { result ≡ period self.now.table self.now.slot }
    {
        self.job.table.as_slice().len() as u32 * self.job.slot
    }

    /// The place of a core whose task starts at a cycle.
    #[tactic(auto, using(crate::proofs::SitesFound::same_site))]
    pub fn place_of(&self, core: u32, start: u64) -> Place
        requires among { core < self.now.cores }
        requires start { start ≤ LATEST_START }
        ensures site { (image : Parts) → site_of result image ≡ site_on self.now core start image }
        ensures cores { result.cores ≡ self.now.cores }
        ensures core { result.core ≡ core }
        ensures slot { result.slot ≡ self.now.slot }
        ensures table { result.table ≡ self.now.table }
        ensures starts { result.start ≡ start }
    {
        match Place::tabled(&self.table, self.job.cores, core, self.job.slot, start) {
            Some(place) => place,
            None => unreachable!(),
        }
    }
}
