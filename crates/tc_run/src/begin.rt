ghost use Rattle.std.specs.Prelude.{◌≡◌, ◌≤◌, ◌<◌, length, IfOk};
ghost use Rattle.tc_run.specs.Begun.{IsBegun};
ghost use Rattle.slot_arbiter.specs.declared.table.TheConstants.{MOST_CORES};

use global_step::{Loaded, LoadedCore};
use patmos_core::Core;
use std::alloc::Global;
use tc_word::OutOfMemory;

// the core that was loaded, with or without a task
pub(crate) fn core_of(alloc: Global, loaded: &LoadedCore, trace: u32) -> Result<Core, OutOfMemory>
    ensures { IfOk result (IsBegun trace loaded.now) }
{
    match &loaded.image {
        Some(image) => Core::new(alloc, loaded.place, image, loaded.input.as_slice(), trace),
        None => Ok(Core::idle(loaded.place)),
    }
}

// how many cores there are, of which a platform has 16 at most
pub(crate) fn count_of(machine: &Loaded) -> usize
    ensures count { result ≡ length machine.now.cores }
    ensures some { 0 < result }
    ensures few { result ≤ MOST_CORES }
{
    let cores = machine.cores();
    let _most = cores[0].place.cores;
    cores.len()
}
