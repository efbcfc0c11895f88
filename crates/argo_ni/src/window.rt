ghost use Rattle.std.specs.Prelude.{◌≡◌, ◌≢◌, ℕ, ◌+◌, ◌-◌, ◌*◌, ◌/◌, ◌%◌, ◌^◌, ◌<◌, ◌≤◌, false, length, IsNone, IfSome};
ghost use Rattle.slot_arbiter.specs.Order.{IsNext};
ghost use Rattle.argo_ni.specs.Window.{target_in, is_used, sends_in};
ghost use Rattle.slot_arbiter.specs.declared.table.TheConstants.{MOST_CORES};

use crate::port::Port;

/// The windows of the network: one begins every third cycle, and in the window of cycle q core c may
/// send to core (c + k) mod n, where (q / 3) mod (n - 1) is k - 1. So that is another core, each sender
/// has a target of its own, and after n - 1 windows they begin again. A law: it does nothing.
#[tactic(auto, using(crate::proofs::Windows::other_core, crate::proofs::Windows::targets_apart, crate::proofs::Windows::round_on))]
pub fn windows_by_cycles()
    ensures rule { (n core k cycle : ℕ) → 1 ≤ k → (cycle / 3) % (n - 1) ≡ k - 1
        → target_in n core (cycle / 3) ≡ (core + k) % n }
    ensures other { (n core window : ℕ) → 2 ≤ n → core < n → target_in n core window ≢ core }
    ensures own { (n core core' window : ℕ) → core < n → core' < n
        → target_in n core window ≡ target_in n core' window → core ≡ core' }
    ensures round { (n core window : ℕ) → target_in n core (window + (n - 1)) ≡ target_in n core window }
{}

/// The core to which a core may send in the given window, counted from cycle 0.
pub fn target_in(cores: u32, core: u32, window: u64) -> u32
    requires others { 2 ≤ cores }
    requires most { cores ≤ MOST_CORES }
    requires among { core < cores }
    ensures target { result ≡ target_in cores core window }
    ensures bounded { result < cores }
{
    let turn = (window % u64::from(cores - 1)) as u32;
    (core + (turn + 1)) % cores
}

/// The core after this one, and after the last one the first.
fn core_after(cores: u32, core: u32) -> u32
    requires most { cores ≤ MOST_CORES }
    requires among { core < cores }
    ensures after { result ≡ (core + 1) % cores }
    ensures bounded { result < cores }
{
    if core + 1 == cores { 0 } else { core + 1 }
}

/// The target of the window after one that has this target: the next core, but not the sender.
#[tactic(auto, using(crate::proofs::Windows::next_in_round, crate::proofs::Windows::past_itself))]
fn next_target(cores: u32, core: u32, target: u32) -> u32
    requires others { 2 ≤ cores }
    requires most { cores ≤ MOST_CORES }
    requires among { core < cores }
    requires target { target < cores }
    ensures next { (k : ℕ) → target ≡ target_in cores core k → result ≡ target_in cores core (k + 1) }
    ensures bounded { result < cores }
{
    let next = core_after(cores, target);
    if next == core {
        core_after(cores, core)
    } else {
        next
    }
}

/// The first window, from number `first` on, in which the core has words to send to its target.
#[tactic(auto, using(crate::proofs::Windows::found, crate::proofs::Windows::used_here, crate::proofs::Windows::unused_here, crate::proofs::Windows::none_used))]
fn next_window(ports: &[Port], cores: u32, core: u32, first: u64) -> Option<u64>
    requires targets { length ports.now ≡ 16 }
    requires most { cores ≤ MOST_CORES }
    requires among { core < cores }
    requires in_time { first < 2 ^ 62 }
    ensures next { IfSome result (IsNext (is_used cores core ports.now) first) }
    ensures near { IfSome result (λ window. window < first + 15) }
    ensures none { IsNone result → (k : ℕ) → is_used cores core ports.now k ≡ false }
{
    if cores < 2 {
        return None;
    }
    let mut target = target_in(cores, core, first);
    for window in first..first + u64::from(cores - 1) {
        if ports[target as usize].channel.left > 0 {
            return Some(window);
        }
        target = next_target(cores, core, target);
    }
    None
}

/// The first cycle in which the core sends a packet, where half-cycle `from` is the first that counts.
#[tactic(auto, using(crate::proofs::Windows::sends_next, crate::proofs::Windows::never_sends))]
pub fn next_send(ports: &[Port], cores: u32, core: u32, from: u64) -> Option<u64>
    requires targets { length ports.now ≡ 16 }
    requires most { cores ≤ MOST_CORES }
    requires among { core < cores }
    requires in_time { from < 2 ^ 62 }
    ensures next { IfSome result (IsNext (sends_in cores core ports.now) (from / 2)) }
    ensures near { IfSome result (λ cycle. 2 * cycle + 1 < from + 90) }
    ensures none { IsNone result → (cycle : ℕ) → sends_in cores core ports.now cycle ≡ false }
{
    let window = next_window(ports, cores, core, window_from(from))?;
    Some(3 * window)
}

/// The first window that begins at or after the injection of a half-cycle.
fn window_from(half: u64) -> u64
    requires in_time { half < 2 ^ 62 }
    ensures from { half ≤ 2 * (3 * result) + 1 }
    ensures near { 2 * (3 * result) + 1 < half + 6 }
{
    (half / 2).div_ceil(3)
}
