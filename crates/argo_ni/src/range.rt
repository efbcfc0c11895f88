ghost use Rattle.std.specs.Prelude.{ℕ, ◌<◌, ◌≤◌};
ghost use Rattle.shared_order.specs.Fit.{IsFit};
ghost use Rattle.argo_ni.specs.Packet.{comm_word};
ghost use Rattle.argo_ni.specs.Interface.{Interface, new_interface};
ghost use Rattle.argo_ni.specs.Start.{with_source, with_target, started};
ghost use Rattle.argo_ni.specs.Turn.{turn};
ghost use Rattle.argo_ni.specs.Range.{InRange};

/// An interface in range names only words of shared and communication memory, stores only words of 32 bits, and stays
/// in range, through its turns, its registers being set, and transfers being started. A law: it does nothing.
pub fn interface_keeps_ranges()
    ensures turn { (x : Interface) (phase cycle words : ℕ) → InRange x → comm_word x.cores 0 ≤ words
        → IsFit InRange words (turn phase cycle x) }
    ensures new { (n core : ℕ) → core < n → InRange (new_interface n core) }
    ensures source { (x : Interface) (d word : ℕ) → InRange x → InRange (with_source d word x) }
    ensures target { (x : Interface) (d word : ℕ) → InRange x → InRange (with_target d word x) }
    ensures started { (x : Interface) (d count : ℕ) → InRange x → InRange (started d count x) }
{}
