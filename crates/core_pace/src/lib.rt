//! A core bundle by bundle: its run apart told by bundles, and the pace of it.
//!
//! The model of a core says what happens in each cycle. Whoever looks at a pipeline, or proves anything of compiled
//! code, wants the same run told by its bundles: which bundle is done in which cycle, what the core then is, and why
//! its times depend on events and never on values. The crate has definitions and laws, and no code besides: each law is
//! a function that does nothing, whose clauses are the theorems. In `specs/`, in reading order:
//!
//! 1. `Starts` (slot starts and gaps that compute) and `Spans` (a transfer in time: the cycles of its transactions and
//!    its end, by arithmetic);
//! 2. `Moment`: a point within a cycle of the run, after the interface's part of the
//!    cycle, and the bundles done so far;
//! 3. `Next`: what a core that is about to do a bundle is, and the next such moment, in steps: the bundle, the words
//!    that it moves, a flow that then takes effect, and what that fetches;
//! 4. `Pace`: what of a core its times depend on, the events that change it, and the clock over events; `Bound`: how
//!    long events take at most;
//! 5. `Run`: the run by bundles; `Growth`: what is kept as a run grows; `Times`: the times of a task;
//! 6. `Task`: the task without its interface; `Stores`: who stores where; `Worked`: for worked values.
//!
//! - [`slot_starts_compute`] and [`place_has_slots`]: what computes is what the slot arbiter's relations tell.
//! - [`transfer_in_time`]: a transfer takes the transactions and comes to the end that are told of it.
//! - [`bundle_by_bundle`]: the run passes from the moment of a bundle through the next one, where the core is
//!   about to do a bundle, has ended or was stopped; [`quick_bundle_takes_a_cycle`] and
//!   [`interface_alone_goes_on`] say what is in between.
//! - [`run_by_bundles`] and [`run_cut_at_a_cycle`]: the run apart is the run by bundles, cut at a cycle;
//!   [`ended_task_is_done`]: its outcome, once it has ended.
//! - [`run_keeps_pace`], [`times_hang_on_events`] and [`ended_run_has_its_times`]: the run follows the clock of its
//!   events, so that runs with the same events have the same transactions in the same cycles, and the same end.
//! - [`run_grows`]: what a run has made stays, a task that ended or was stopped stays as it is, and values past those
//!   that were read do not matter.
//! - [`task_stands_apart`]: its own loads determine a task, whatever its interface reads;
//!   [`task_stores_its_own`] and [`packets_go_where_asked`]: it stores into its own communication memory and
//!   shared memory alone, and packets go only to cores to which it asked for a transfer;
//!   [`packets_are_all_besides`]: a core does nothing else to shared words.
//! - [`presence_by_addresses`], [`stack_moves_by_pointers`], [`stack_words_come_back`] and [`run_keeps_a_stack`]: the
//!   caches by addresses and pointers.
//! - [`worked_starts`], [`worked_bundles`], [`worked_events`], [`worked_growth`], [`worked_stack`] and
//!   [`worked_words`] show the definitions on small tasks, computed by the checker.
//!
//! What its words mean stands in [the glossary](../../../docs/GLOSSARY.md).
#![tactic(auto)]

mod between;
mod cached;
mod growth;
mod next;
mod pace;
mod run;
mod spans;
mod stack;
mod starts;
mod stores;
mod task;
mod worked;

pub use between::{interface_alone_goes_on, quick_bundle_takes_a_cycle};
pub use cached::presence_by_addresses;
pub use growth::run_grows;
pub use next::bundle_by_bundle;
pub use pace::{ended_run_has_its_times, run_keeps_pace, times_hang_on_events};
pub use run::{ended_task_is_done, place_has_slots, run_by_bundles, run_cut_at_a_cycle};
pub use spans::transfer_in_time;
pub use stack::{run_keeps_a_stack, stack_moves_by_pointers, stack_words_come_back};
pub use starts::slot_starts_compute;
pub use stores::{packets_are_all_besides, packets_go_where_asked, task_stores_its_own};
pub use task::task_stands_apart;
pub use worked::{
    worked_bundles, worked_events, worked_growth, worked_stack, worked_starts, worked_words,
};
