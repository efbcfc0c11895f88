ghost use Rattle.std.specs.Prelude.{◌≡◌, ℕ, ◌*◌, ◌%◌, ◌^◌, ◌<◌, ◌≤◌};
ghost use Rattle.slot_arbiter.specs.Stamp.{stamp, IsAct};

use crate::place::{MOST_CYCLES, Place};

/// The stamp of what the core does at a cycle, in phase 0, in which its packets are delivered, or
/// in phase 1, in which it injects a packet and makes its own access.
pub fn stamp_of(place: &Place, cycle: u64, phase: u32) -> u64
    requires in_time { cycle ≤ 2 * MOST_CYCLES }
    requires in_phase { phase ≤ 1 }
    ensures number { result ≡ stamp place.now.cores place.now.core cycle phase }
    ensures core { result % place.now.cores ≡ place.now.core }
    ensures bounded { result < 2 ^ 31 }
{
    let half_cycle = 2 * cycle + u64::from(phase);
    half_cycle * u64::from(place.cores) + u64::from(place.core)
}

/// Stamps stand in the order of their cycles, then of their phases, then of their cores, so that
/// no two acts have the same one. A law: it does nothing.
pub fn stamps_in_order()
    ensures by_cycle { (n core core' cycle cycle' phase phase' : ℕ) → IsAct n core phase
        → cycle < cycle' → stamp n core cycle phase < stamp n core' cycle' phase' }
    ensures by_phase { (n core core' cycle : ℕ) → core < n
        → stamp n core cycle 0 < stamp n core' cycle 1 }
    ensures by_core { (n core core' cycle phase : ℕ) → core < core'
        → stamp n core cycle phase < stamp n core' cycle phase }
    ensures apart { (n core core' cycle cycle' phase phase' : ℕ) → IsAct n core phase
        → IsAct n core' phase' → stamp n core cycle phase ≡ stamp n core' cycle' phase'
        → (core ≡ core') × (cycle ≡ cycle') × (phase ≡ phase') }
{}

#[cfg(test)]
mod tests {
    use super::*;

    #[test]
    fn stamps_of_two_cores(rt: HostRuntime) {
        for (core, cycle, phase, want) in [
            (0, 2, 0, 8),
            (1, 1, 0, 5),
            (1, 3, 0, 13),
            (0, 2, 1, 10),
        ] {
            let place = Place::new(2, core, 6, 0).expect(&rt, "a place");
            assert_eq!(rt;
                stamp_of(&place, cycle, phase),
                want,
                "core {core} cycle {cycle}"
            );
        }
    }
}
