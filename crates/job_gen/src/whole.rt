ghost use Rattle.std.specs.Prelude.{◌≡◌, ◌++◌, IfOk, OnOk};
ghost use Rattle.job_gen.specs.Generator as specs;

use crate::draws::Draws;
use crate::task::put_task;
use crate::text::put_line;
use std::alloc::Global;
use tc_word::OutOfMemory;

/// How many cores a generated job has, each with a task.
pub const CORES: u64 = 4;

/// The text of the job with a number.
#[tactic(auto, unfolding(crate::specs::Generator::generated), using(crate::proofs::Reduced::tasks_same))]
pub fn generate(alloc: Global, n: u64) -> Result<Vec<u8>, OutOfMemory>
    ensures { IfOk result (λ text. text.items ≡ specs.generated n) }
{
    let mut text = Vec::new(alloc);
    let mut draws = Draws::new(n);
    put_platform(&mut text)?;
    put_tasks(&mut text, &mut draws)?;
    Ok(text)
}

#[tactic(auto, unfolding(crate::specs::Generator::platform_lines))]
fn put_platform(text: &mut Vec<u8>) -> Result<(), OutOfMemory>
    ensures { OnOk result (text.new.items ≡ text.old.items ++ specs.platform_lines) }
{
    put_line(text, "version = 1")?;
    put_line(text, "cores = 4")?;
    put_line(text, "slot = 8")?;
    put_line(text, "cycles = 20000000")
}

fn put_tasks(text: &mut Vec<u8>, draws: &mut Draws) -> Result<(), OutOfMemory>
    ensures { OnOk result (text.new.items ≡ text.old.items ++ specs.tasks CORES 0 draws.old.state) }
{
    for core in 0..CORES {
        put_task(text, core, draws)?;
    }
    Ok(())
}
