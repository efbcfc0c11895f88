ghost use Rattle.std.specs.Prelude.{◌≡◌, ◌≤◌, length, vec_capacity, Ok, IfOk};
ghost use Rattle.tc_io.specs.Gathered.{empty, with_piece, known};
ghost use Rattle.tc_io.specs.Sink.{IsWritten};

use crate::sink::Sink;
use crate::source::Failed;
use std::alloc::Global;
use std::marker::Model;
use tc_word::OutOfMemory;

/// A sink in memory that never fails. It keeps the first bytes, as many as it has room for, and
/// counts the rest; it tells its bytes while all of them are kept.
#[derive(Drop)]
pub struct SureGather {
    kept: Vec<u8>,
    room: usize,
    rest: u64,
}

impl Model for SureGather {
    ghost use Rattle.std.specs.Prelude.{◌≤◌, length, vec_capacity};
    ghost use Rattle.tc_io.specs.Gathered.{Gathered};

    ghost Value = { Gathered };

    ghost view = { λ g. record { kept = g.kept.items; room = g.room; rest = g.rest } };

    ghost invariant = { λ g. (length g.kept.items ≤ g.room) × (g.room ≤ vec_capacity g.kept) };
}

impl SureGather {
    /// Takes the memory for `room` bytes.
    pub fn new(alloc: Global, room: usize) -> Result<Self, OutOfMemory>
        ensures { IfOk result (λ g. g ≡ empty room) }
    {
        Ok(SureGather {
            kept: Vec::with_capacity(alloc, room)?,
            room,
            rest: 0,
        })
    }

    /// The bytes that are kept.
    pub fn kept(&self) -> &[u8]
        ensures { result.now ≡ self.now.kept }
    {
        self.kept.as_slice()
    }

    /// How many bytes came after those that are kept, up to 2^64 - 1.
    pub fn rest(&self) -> u64
        ensures { result ≡ self.now.rest }
    {
        self.rest
    }
}

impl Sink for SureGather {
    ghost taken = { known };

    ghost faults = { λ _. 0 };

    fn write(&mut self, bytes: &[u8]) -> Result<usize, Failed>
        ensures written { IsWritten 0 0 (known self.old) (known self.new) bytes.now result }
        ensures count { result ≡ Ok (length bytes.now) }
        ensures gathered { self.new ≡ with_piece self.old bytes.now }
    {
        let count = bytes.len().min(self.room - self.kept.len());
        let (fitting, over) = bytes.split_at(count);
        let extended = self.kept.extend_from_slice(fitting);
        prove!(extended.is_ok());
        self.rest = self.rest.saturating_add(over.len() as u64);
        Ok(bytes.len())
    }
}
