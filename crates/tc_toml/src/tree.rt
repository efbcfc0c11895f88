ghost use Rattle.std.specs.Prelude.{◌≡◌, []};
ghost use Rattle.toml.specs.View.{table_view};
ghost use Rattle.tc_toml.specs.Fault.{Gives, at_key};
ghost use Rattle.tc_toml.specs.Tree as specs;
ghost use Rattle.tc_toml.specs.Values.{given};

use crate::fault::{JobError, JobFault};
use std::alloc::Global;
use tc_word::Text;
use toml::Table;

/// The tree of the bytes.
#[tactic(auto, using(crate::proofs::Trees::tree_of_text, crate::proofs::Trees::tree_of_no_text))]
pub fn tree_of(alloc: Global, bytes: &[u8]) -> Result<Table, JobError>
    ensures { Gives (λ table. table_view table) result
        (at_key None [] (given JobFault.Toml (specs.tree_of bytes.now))) }
{
    match toml::table_from_slice(alloc, bytes) {
        Ok(table) => Ok(table),
        Err(error) if error.is_memory() => Err(JobError::Memory),
        Err(_) => Err(JobError::Fault {
            kind: JobFault::Toml,
            task: None,
            key: Text::of(String::new(alloc)),
        }),
    }
}
