//! C tasks on a core and in a machine: what holds of compiled trees holds of the C programs that they are made of.
//! The crate has definitions and laws, and no code besides.
//!
//! - `specs/Translation.antt`: what a program becomes, its times and its bounds on a core's place.
//! - `specs/Programs.antt`: what a core has where it has what a text means, and what a program's task may touch.
//! - `specs/Doing.antt`: what a core does that runs an image, whatever is put in and read.
//! - `specs/Telling.antt`: what a machine tells of a C task.
//!
//! - [`programs_can_be_run`]: the tree of a valid program can be run on its core: the frames on each chain of its calls
//!   fit the stack, and it sends to other cores of the platform alone. [`programs_fit_images`]: its code fits an image.
//! - [`programs_keep_their_times`]: whatever is put in and read, its times are the same, within its
//!   bound, and no check stops it; [`programs_keep_their_persistent_bound`]: they end within the
//!   persistent bound, which is no more than the other; [`programs_come_to_their_meaning`]: it comes to
//!   what its text means; [`programs_touch_what_they_mention`]: of the words that others reach, and of
//!   the cores, it touches only what its text mentions.
//! - [`machines_tell_of_programs`]: in a machine too a C task keeps its times, within its bound,
//!   and gives what its text means from each world that fits its loads; where it is alone by the
//!   texts of the job, the world of zeros does.
//!
//! What its words mean stands in [the glossary](../../../docs/GLOSSARY.md).
#![tactic(auto)]

mod laws;

pub use laws::{
    machines_tell_of_programs, programs_can_be_run, programs_come_to_their_meaning,
    programs_fit_images, programs_keep_their_persistent_bound, programs_keep_their_times,
    programs_touch_what_they_mention,
};
