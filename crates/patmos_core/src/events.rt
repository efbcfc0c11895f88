ghost use Rattle.std.specs.Prelude.{◌≡◌, ℕ, ◌+◌, ◌<◌, ◌≤◌, [], ◌∷◌, ◌++◌, take, false};
ghost use Rattle.patmos_step.specs.declared.ask.Ask.TheVariants as asks;
ghost use Rattle.patmos_step.specs.Asks.{loading, ops_of, AskFits};
ghost use Rattle.patmos_core.specs.Events.{storing, loads_from, stores_from, asked_of, AllBelow, AllUnread};

use patmos_step::Ask;
use slot_arbiter::{Event, WordOp};

/// An event of nothing: room for one.
pub fn blank() -> Event
    ensures { asked_of result ≡ [] }
{
    Event {
        stamp: 0,
        ops: [load(0); 8],
        count: 0,
    }
}

/// From here on it is an event at a stamp, which asks for nothing yet.
pub fn begin_at(event: &mut Event, stamp: u64)
    ensures stamp { event.new.stamp ≡ stamp }
    ensures count { event.new.count ≡ 0 }
    ensures asks { asked_of event.new ≡ [] }
    ensures below { (words : ℕ) → AllBelow words (asked_of event.new) }
    ensures unread { AllUnread (asked_of event.new) }
{
    event.stamp = stamp;
    event.count = 0;
}

// a load of a word, whose value is not known yet
fn load(word: u32) -> WordOp
    ensures { result ≡ loading word }
{
    WordOp {
        word,
        write: false,
        value: 0,
    }
}

// a store in a word
fn store(word: u32, value: u32) -> WordOp
    ensures { result ≡ storing word value }
{
    WordOp {
        word,
        write: true,
        value,
    }
}

// the event asks for one more operation
#[tactic(auto, using(crate::proofs::Eventful::one_more, crate::proofs::Eventful::one_more_below, crate::proofs::Eventful::one_more_unread))]
fn push(event: &mut Event, op: WordOp)
    requires room { event.old.count < 8 }
    ensures asks { asked_of event.new ≡ asked_of event.old ++ op ∷ [] }
    ensures below { (words : ℕ) → AllBelow words (asked_of event.old) → op.word < words
        → AllBelow words (asked_of event.new) }
    ensures unread { AllUnread (asked_of event.old) → (op.write ≡ false → op.value ≡ 0)
        → AllUnread (asked_of event.new) }
    ensures stamp { event.new.stamp ≡ event.old.stamp }
    ensures count { event.new.count ≡ event.old.count + 1 }
{
    event.ops[event.count as usize] = op;
    event.count += 1;
}

/// The event asks besides for one or two words from this one on to be loaded.
pub fn ask_packet(event: &mut Event, first: u32, count: u32)
    requires room { event.old.count + 2 ≤ 8 }
    requires some { 1 ≤ count }
    requires most { count ≤ 2 }
    requires small { first < 65536 }
    ensures asks { asked_of event.new ≡ asked_of event.old ++ loads_from first count }
    ensures below { (words : ℕ) → AllBelow words (asked_of event.old) → first + count ≤ words
        → AllBelow words (asked_of event.new) }
    ensures unread { AllUnread (asked_of event.old) → AllUnread (asked_of event.new) }
    ensures stamp { event.new.stamp ≡ event.old.stamp }
    ensures count { event.new.count ≡ event.old.count + count }
{
    push(event, load(first));
    if count == 2 {
        push(event, load(first + 1));
    }
}

/// The event asks besides for one or two values to be stored from this word on.
pub fn ask_delivery(event: &mut Event, first: u32, count: u32, values: [u32; 2])
    requires room { event.old.count + 2 ≤ 8 }
    requires some { 1 ≤ count }
    requires most { count ≤ 2 }
    requires small { first < 65536 }
    ensures asks { asked_of event.new ≡ asked_of event.old ++ stores_from first (take count values) }
    ensures below { (words : ℕ) → AllBelow words (asked_of event.old) → first + count ≤ words
        → AllBelow words (asked_of event.new) }
    ensures unread { AllUnread (asked_of event.old) → AllUnread (asked_of event.new) }
    ensures stamp { event.new.stamp ≡ event.old.stamp }
    ensures count { event.new.count ≡ event.old.count + count }
{
    push(event, store(first, values[0]));
    if count == 2 {
        push(event, store(first + 1, values[1]));
    }
}

/// The event asks besides for a value to be stored in a word.
pub fn ask_store(event: &mut Event, word: u32, value: u32)
    requires room { event.old.count < 8 }
    ensures asks { asked_of event.new ≡ asked_of event.old ++ storing word value ∷ [] }
    ensures below { (words : ℕ) → AllBelow words (asked_of event.old) → word < words
        → AllBelow words (asked_of event.new) }
    ensures unread { AllUnread (asked_of event.old) → AllUnread (asked_of event.new) }
    ensures stamp { event.new.stamp ≡ event.old.stamp }
    ensures count { event.new.count ≡ event.old.count + 1 }
{
    push(event, store(word, value));
}

/// The event asks besides for what a core's own act in a cycle asks for.
pub fn ask_own(event: &mut Event, ask: Ask)
    requires room { event.old.count + 4 ≤ 8 }
    requires fits { AskFits 65536 ask }
    ensures asks { asked_of event.new ≡ asked_of event.old ++ ops_of ask }
    ensures below { (words : ℕ) → AllBelow words (asked_of event.old) → AskFits words ask
        → AllBelow words (asked_of event.new) }
    ensures unread { AllUnread (asked_of event.old) → AllUnread (asked_of event.new) }
    ensures stamp { event.new.stamp ≡ event.old.stamp }
    ensures count { event.old.count ≤ event.new.count }
    ensures some { (ask ≡ asks.Nothing → ⊥) → event.old.count < event.new.count }
{
    match ask {
        Ask::Nothing => {}
        Ask::Load { word } | Ask::Change { word } => push(event, load(word)),
        Ask::Line { word } => {
            ask_packet(event, word, 2);
            ask_packet(event, word + 2, 2);
        }
        Ask::Store { word, value } => ask_store(event, word, value),
    }
}
