ghost use Rattle.std.specs.Prelude.{ℕ, List, Option};
ghost use Rattle.tc_io.specs.Source.{IsRead};

/// The outside failed: a read or a write could not be done.
#[derive(Clone, Copy, Debug, PartialEq, Eq)]
pub struct Failed;

/// Where bytes come from.
///
/// `left` is the bytes that are left, where the source tells them, and `faults` a count of its
/// faults, up to its last value, 2^64 - 1.
pub trait Source {
    ghost left: { Self → Option (List ℕ) };

    ghost faults: { Self → ℕ };

    /// Reads into the front of `buf` and answers how many bytes came. 0 into a buffer that is not
    /// empty is the end of the input.
    fn read(&mut self, buf: &mut [u8]) -> Result<usize, Failed>
        ensures { IsRead (faults self.old) (faults self.new) (left self.old) (left self.new) buf.new result };
}
