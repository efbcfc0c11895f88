ghost use Rattle.std.specs.Prelude.{◌≡◌, ◌≤◌, IfOk, option_map};
ghost use Rattle.toml.specs.Data.{get_member};
ghost use Rattle.toml.specs.View.{view, table_view};
ghost use Rattle.tc_toml.specs.Fault.{Gives, IsReported, IsReportedAt, at_key};
ghost use Rattle.tc_toml.specs.Values as specs;

use crate::fault::{JobError, JobFault, Refusal};
use crate::values::{number_of, number_or, text_of};
use std::alloc::Global;
use tc_word::Text;
use toml::{Table, Value};

/// A table of a text: its top level, or one of a job's tasks.
#[derive(Clone, Copy)]
pub struct Section<'a> {
    pub alloc: Global,
    pub table: &'a Table,
    /// Which task it is, counted from 0; `None` at the top level.
    pub task: Option<u32>,
}

impl<'a> Section<'a> {
    /// The value at a key.
    pub fn value(&self, key: &str) -> Option<&'a Value>
        ensures { option_map (λ v. view v.now) result ≡ get_member key.now (table_view self.now.table.now) }
    {
        self.table.get(key)
    }

    /// The integer at a key, from `low` to `high`.
    pub fn number(&self, key: &str, low: u32, high: u32) -> Result<u32, JobError>
        ensures number { Gives (λ n. n) result
            (at_key self.now.task key.now (specs.number_of low high
            (get_member key.now (table_view self.now.table.now)))) }
        ensures least { IfOk result (λ n. low ≤ n) }
        ensures most { IfOk result (λ n. n ≤ high) }
    {
        self.reported(key, number_of(self.value(key), low, high))
    }

    /// The integer at a key, from `low` to `high`, or `left_out` where the key is not there.
    pub fn number_or(&self, key: &str, left_out: u32, low: u32, high: u32) -> Result<u32, JobError>
        requires least { low ≤ left_out }
        requires most { left_out ≤ high }
        ensures number { Gives (λ n. n) result
            (at_key self.now.task key.now (specs.number_or left_out low high
            (get_member key.now (table_view self.now.table.now)))) }
        ensures least { IfOk result (λ n. low ≤ n) }
        ensures most { IfOk result (λ n. n ≤ high) }
    {
        self.reported(key, number_or(self.value(key), left_out, low, high))
    }

    /// The string at a key.
    pub fn text(&self, key: &str) -> Result<&'a str, JobError>
        ensures { Gives (λ s. s.now) result
            (at_key self.now.task key.now (specs.text_of (get_member key.now (table_view self.now.table.now)))) }
    {
        self.reported(key, text_of(self.value(key)))
    }

    /// What was read at a key; where its value was refused, the fault of that key.
    pub fn reported<T>(&self, key: &str, read: Result<T, Refusal>) -> Result<T, JobError>
        ensures { IsReportedAt self.now.task key.now read result }
    {
        match read {
            Ok(value) => Ok(value),
            Err(Refusal::Fault(fault)) => Err(self.fault(fault, key)),
            Err(Refusal::Memory) => Err(JobError::Memory),
        }
    }

    /// A fault at a key.
    pub fn fault(&self, kind: JobFault, key: &str) -> JobError
        ensures { IsReported kind self.now.task key.now result }
    {
        match String::from_str(self.alloc, key) {
            Ok(key) => JobError::Fault {
                kind,
                task: self.task,
                key: Text::of(key),
            },
            Err(_) => JobError::Memory,
        }
    }
}
