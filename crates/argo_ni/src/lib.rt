//! The network interface of a core: transfers between the communication memories of the cores, over
//! Argo, the time-division network of T-CREST (Schoeberl et al., 2015), by our own profile TP1.
//!
//! A core sets the source and the target word of a transfer and starts it. From then on its
//! interface sends the words in packets of one or two, one packet in each window of the target, and
//! each packet comes to its words nine cycles after it was sent. The windows are a fixed schedule:
//! one begins every third cycle, and they go round the other cores. So no core can delay another.
//!
//! The crate promises that the interface is exactly the one that its definitions tell cycle by cycle, as
//! programs on the words of the communication memories, while it looks at no cycle in which nothing
//! happens. No call takes memory, and each is constant work.
//!
//! - [`Ni`] is the interface of one core: its registers, what it still has to send, and the packets
//!   under way. [`Ni::next_after`] tells the next injection or delivery, and that nothing lies between.
//!   The next injection is found by arithmetic where a transfer begins or a packet goes out, and kept.
//! - [`windows_by_cycles`] states the schedule, and [`interface_worked`] shows the definitions at work.
//! - [`interface_goes_on`]: what an interface that is run apart does from act to act.
//! - [`interface_keeps_ranges`]: it names only words that there are, and stores only words of 32 bits.
//!
//! What its words mean stands in [the glossary](../../../docs/GLOSSARY.md).
#![tactic(auto)]

mod event;
mod ni;
mod packet;
mod port;
mod range;
mod run;
mod under_way;
mod window;
mod worked;

pub use event::{NiEvent, NiKind, Started};
pub use ni::Ni;
pub use packet::{Packet, Payload};
pub use port::{Channel, Port};
pub use range::interface_keeps_ranges;
pub use run::interface_goes_on;
pub use window::windows_by_cycles;
pub use worked::interface_worked;
