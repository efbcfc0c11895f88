//! The laws of C tasks.
ghost use Rattle.std.specs.Prelude.{◌≡◌, ℕ, ◌+◌, ◌<◌, ◌≤◌, List, length, slice_index, true};
ghost use Rattle.c_mentions.specs.Alone.{Running};
ghost use Rattle.c_task.specs.Doing.{ComesToMeaning, KeepsTimes, NeverTraps, TouchesMentioned};
ghost use Rattle.c_task.specs.Telling.{HasProgram, Tells};
ghost use Rattle.c_task.specs.Translation.{translation, times, bound, persist};
ghost use Rattle.c_tree.specs.Plain.{PlainItem};
ghost use Rattle.c_tree.specs.Valid.{IsValid};
ghost use Rattle.patmos_model.specs.State.{Core};
ghost use Rattle.single_path.specs.Single.{weights_in, single};
ghost use Rattle.sp_shape.specs.Formed.{is_formed};
ghost use Rattle.task_core.specs.Tasks.{IsRunnable, IsCode};
ghost use Rattle.task_machine.specs.Machines.{machine_after};
ghost use Rattle.tc_link.specs.Fits.{FitsImage};
ghost use Rattle.tc_link.specs.Placed.{size_of};

use core_pace::place_has_slots;
use slot_arbiter::Place;
use task_core::tasks_never_trap;
use task_words::{tasks_come_to_their_meaning, tasks_reach_what_they_name};

/// The tree of a program that is valid on its core can be run there: it is well formed, the frames on each
/// chain of its calls fit the stack, since each function weighs more than twice its frame, and it sends to
/// other cores of the platform alone. A law: it does nothing.
pub fn programs_can_be_run(place: &Place)
    ensures { (items : List PlainItem) → IsValid items place.now.cores place.now.core
        → IsRunnable (single items) place.now }
{}

/// The code of a program that is valid on its core is well formed and fits an image: with its size, each function takes
/// at most as many words as it weighs. A law: it does nothing.
pub fn programs_fit_images(place: &Place)
    ensures formed { (items : List PlainItem) → IsValid items place.now.cores place.now.core
        → is_formed (translation items).scheduled ≡ true }
    ensures size { (items : List PlainItem) → IsValid items place.now.cores place.now.core → (k : ℕ)
        → k < length (translation items).scheduled.functions
        → 1 + size_of (translation items).scheduled k ≤ slice_index (weights_in items) k }
    ensures fits { (items : List PlainItem) → IsValid items place.now.cores place.now.core
        → FitsImage (translation items).scheduled }
{}

/// A program's task on its core keeps its times. Whatever words are put in and read, its transactions below
/// each cycle are those of its times, it runs until their end, and is done from there on; that is within its
/// bound. No check ever stops it. A law: it does nothing.
pub fn programs_keep_their_times(place: &Place)
    ensures times { (items : List PlainItem) → IsValid items place.now.cores place.now.core → IsCode (single items)
        → KeepsTimes items place.now (translation items).image }
    ensures within { (items : List PlainItem) → IsValid items place.now.cores place.now.core → IsCode (single items)
        → (times place.now items).end ≤ place.now.start + bound place.now items }
    ensures never { (items : List PlainItem) → IsValid items place.now.cores place.now.core → IsCode (single items)
        → NeverTraps place.now (translation items).image }
{
    tasks_never_trap(place);
    place_has_slots(place);
}

/// A program's task on its core ends within its persistent bound too, whatever words are put in and read, and that
/// is never more than its bound. A law: it does nothing.
pub fn programs_keep_their_persistent_bound(place: &Place)
    ensures within { (items : List PlainItem) → IsValid items place.now.cores place.now.core → IsCode (single items)
        → (times place.now items).end ≤ place.now.start + persist place.now items }
    ensures tighter { (items : List PlainItem) → IsValid items place.now.cores place.now.core
        → persist place.now items ≤ bound place.now items }
{}

/// A program's task on its core gives what its text means. From its end on, for each world in which each of the
/// task's own loads of a word that others reach gives its own last store there, else the world's word, it has the
/// value, the flag, the words and the transfers that the text comes to from that world. A law: it does nothing.
pub fn programs_come_to_their_meaning(place: &Place)
    ensures { (items : List PlainItem) → IsValid items place.now.cores place.now.core → IsCode (single items)
        → ComesToMeaning items place.now (translation items).image }
{
    tasks_come_to_their_meaning(place);
}

/// A program's task on its core touches, of the words that others reach, only what its text mentions,
/// whatever is put in and read. A law: it does nothing.
pub fn programs_touch_what_they_mention(place: &Place)
    ensures { (items : List PlainItem) → IsValid items place.now.cores place.now.core → IsCode (single items)
        → TouchesMentioned items place.now (translation items).image }
{
    tasks_reach_what_they_name(place);
}

/// A machine tells of its C tasks. In a machine a C task keeps its times, within its bound, whatever its input
/// is and the other cores do; from its end on it has the value, the flag, the words and the transfers that its
/// text comes to from each world that fits its loads; and where it is alone with its data by the texts of the
/// job, the world of zeros fits. A law: it does nothing.
pub fn machines_tell_of_programs(place: &Place)
    ensures { (items : List PlainItem) (input : List ℕ) (words : ℕ) (cores : ℕ
        → Core) (tasks : List Running) (cycles : ℕ)
        → HasProgram items place.now input words cores tasks cycles
        → Tells items place.now input tasks (machine_after place.now.cores cores cycles) cycles }
{}
