ghost use Rattle.std.specs.Prelude.{ℕ, List, Option};
ghost use Rattle.tc_io.specs.Sink.{IsWritten};

use crate::source::Failed;

/// Where bytes go.
///
/// `taken` is the bytes taken so far, where the sink tells them, and `faults` a count of its
/// faults, up to its last value, 2^64 - 1.
pub trait Sink {
    ghost taken: { Self → Option (List ℕ) };

    ghost faults: { Self → ℕ };

    /// Takes first bytes of `bytes` and answers how many: at least 1 where there is one. After
    /// `Failed` none of them was taken.
    fn write(&mut self, bytes: &[u8]) -> Result<usize, Failed>
        ensures { IsWritten (faults self.old) (faults self.new) (taken self.old) (taken self.new) bytes.now result };
}
