ghost use Rattle.std.specs.Prelude.{◌≡◌, option_map};
ghost use Rattle.toml.specs.View.{view, table_view};
ghost use Rattle.tc_toml.specs.Fault.{Gives};
ghost use Rattle.tc_job.specs.Keys as specs;

use tc_toml::{JobError, JobFault, Section};
use toml::Value;

/// The table whose keys are reported.
#[derive(Clone, Copy)]
pub enum Level {
    /// The top level of a job without a slot table.
    OfJob,
    /// The top level of a job with one.
    OfTabledJob,
    OfTask,
}

impl Level {
    /// The top level of a job of that version: it has a slot table where that is the integer 2.
    pub fn of_job(version: Option<&Value>) -> Level
        ensures { result ≡ specs.level_of (option_map (λ v. view v.now) version.entry) }
    {
        match version.and_then(Value::as_integer) {
            Some(2) => Level::OfTabledJob,
            _ => Level::OfJob,
        }
    }

    /// Whether the level has this key.
    pub fn has(self, key: &str) -> bool
        ensures { result ≡ specs.is_key self key.now }
    {
        match self {
            Level::OfJob => is_job_key(key),
            Level::OfTabledJob => is_job_key(key) || key == "table",
            Level::OfTask => is_task_key(key),
        }
    }
}

fn is_job_key(key: &str) -> bool
    ensures { result ≡ specs.is_job_key key.now }
{
    key == "version"
        || key == "cores"
        || key == "slot"
        || key == "cycles"
        || key == "trace"
        || key == "workers"
        || key == "task"
}

fn is_task_key(key: &str) -> bool
    ensures { result ≡ specs.is_task_key key.now }
{
    key == "core" || key == "lang" || key == "source" || key == "input" || key == "start"
}

/// Refuses the least key that the level does not have: the first, since keys rise.
pub fn know_keys(section: &Section<'_>, level: Level) -> Result<(), JobError>
    ensures { Gives (λ _. tt) result (specs.known_keys level section.now.task (table_view section.now.table.now)) }
{
    'keys: for (key, _value) in section.table.iter() {
        if !level.has(key.as_str()) {
            return Err(section.fault(JobFault::Key, key.as_str()));
        }
    }
    Ok(())
}
