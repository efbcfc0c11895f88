//! The laws of compiled tasks on a core.
ghost use Rattle.std.specs.Prelude.{◌≡◌, ℕ, ◌≤◌, List};
ghost use Rattle.patmos_model.specs.Apart.{apart_at};
ghost use Rattle.patmos_model.specs.Outcome.{state_at};
ghost use Rattle.patmos_model.specs.declared.state.CoreState.TheVariants.{Trapped};
ghost use Rattle.patmos_model.specs.declared.trap.Trap.{Trap};
ghost use Rattle.core_pace.specs.Growth.{below};
ghost use Rattle.sp_tree.specs.Statements.{PlainUnit};
ghost use Rattle.tc_link.specs.Placed.{linked};
ghost use Rattle.code_core.specs.Words.{AreGiven};
ghost use Rattle.task_core.specs.Worked.{sender};
ghost use Rattle.task_core.specs.Tasks.{code_of, bound_of, times_of, IsRunnable, IsCode};

use code_times::code_keeps_its_times;
use slot_arbiter::Place;

/// A compiled task never traps. Whatever words are put in and read, at no number of cycles has a check of its core
/// stopped it. The task's tree is well formed, its frames fit the stack, its sends name other cores of the
/// platform, and its code fits an image. A law: it does nothing.
pub fn tasks_never_trap(place: &Place)
    ensures { (u : PlainUnit) (input values : List ℕ) → IsRunnable u place.now → IsCode u → AreGiven input values
        → (cycles : ℕ) (fault : Trap) (at : ℕ)
        → state_at cycles (apart_at place.now (linked (code_of u)) input values cycles).core.plain ≡ Trapped fault at
        → ⊥ }
{
    code_keeps_its_times(place);
}

/// The times of a compiled task are constant. Whatever words are put in and read, its transactions
/// below each cycle are those of its times, from their end on it has ended in that cycle, and the
/// end is within its bound. A law: it does nothing.
pub fn tasks_keep_their_times(place: &Place)
    ensures accesses { (u : PlainUnit) (input values : List ℕ) → IsRunnable u place.now → IsCode u
        → AreGiven input values
        → (cycles : ℕ) → (apart_at place.now (linked (code_of u)) input values cycles).core.seen.accesses
        ≡ below cycles (times_of u place.now).accesses }
    ensures end { (u : PlainUnit) (input values : List ℕ) → IsRunnable u place.now → IsCode u → AreGiven input values
        → (limit : ℕ) → (times_of u place.now).end ≤ limit
        → (apart_at place.now (linked (code_of u)) input values limit).core.plain.free ≡ (times_of u place.now).end }
    ensures within { (u : PlainUnit) → IsRunnable u place.now → IsCode u
        → (times_of u place.now).end ≤ bound_of u place.now }
{
    code_keeps_its_times(place);
}

/// What the laws of tasks want can be met: of a task that sends a word to core 1, on the
/// first of two cores. A law: it does nothing.
pub fn a_task_that_sends(place: &Place)
    requires two { place.now.cores ≡ 2 }
    requires first { place.now.core ≡ 0 }
    ensures runnable { IsRunnable sender place.now }
    ensures code { IsCode sender }
{}
