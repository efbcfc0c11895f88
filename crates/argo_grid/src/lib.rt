//! Argo as a grid of routers: a schedule of the network is checked, and the latency of a transfer bounded.
//!
//! Argo, the network of T-CREST (Schoeberl et al., 2015), sends packets by a static schedule: each entry
//! sends a packet once in every period, and no router ever waits or decides. So a schedule is right only
//! where no two packets ever meet. Here the network is a grid of up to 16 routers, one for each core, and a
//! packet goes along its row first and then along the column of its target.
//!
//! - [`read_grid`] reads a schedule from TOML: exactly the one of the definition in `specs/Read.antt`, or the
//!   first fault.
//! - [`check_grid`] answers `Ok` exactly where each entry is in range, each packet arrives when its entry
//!   says, and no two packets ever use one link in one cycle, over all cycles; otherwise it names the first
//!   fault of the first faulty entry. It takes no memory.
//! - [`latency`] is the bound of a transfer between the communication memories: by then every packet of it
//!   has been delivered, whatever else its core does.
//! - [`grid_report`] gives the status and the text that are written for the bytes of a schedule.
//! - [`routes_worked`], [`schedules_worked`] and [`transfers_worked`] show the definitions at work.
//!
//! What its words mean stands in [the glossary](../../../docs/GLOSSARY.md).
#![tactic(auto)]

mod check;
mod entries;
mod fault;
mod grid;
mod job;
mod laws;
mod read;
mod report;
mod route;
mod share;
mod transfer;
mod worked;

pub use check::check_grid;
pub use fault::GridFault;
pub use grid::{Entry, Grid};
pub use job::GridJob;
pub use laws::limits;
pub use read::read_grid;
pub use report::{GridReport, grid_report};
pub use transfer::latency;
pub use worked::{routes_worked, schedules_worked, transfers_worked};
