ghost use Rattle.std.specs.Prelude.{◌≡◌, List, ℕ, ◌≤◌, drop, vec_len, length, min, Ok, Some};
ghost use Rattle.tc_io.specs.Source.{IsRead};

use crate::source::{Failed, Source};
use std::marker::Model;

/// Bytes in memory as a source that never fails. A contract sees the bytes that are left.
#[derive(Drop)]
pub struct SureBytes {
    bytes: Vec<u8>,
    at: usize,
}

impl Model for SureBytes {
    ghost Value = { List ℕ };

    ghost view = { λ s. drop s.at s.bytes.items };

    ghost invariant = { λ s. s.at ≤ vec_len s.bytes };
}

impl SureBytes {
    pub fn new(bytes: Vec<u8>) -> Self
        ensures { result ≡ bytes.items }
    {
        SureBytes { bytes, at: 0 }
    }
}

impl Source for SureBytes {
    ghost left = { λ bytes. Some bytes };

    ghost faults = { λ _. 0 };

    fn read(&mut self, buf: &mut [u8]) -> Result<usize, Failed>
        ensures read { IsRead 0 0 (Some self.old) (Some self.new) buf.new result }
        ensures count { result ≡ Ok (min (length buf.old) (length self.old)) }
    {
        let (_, rest) = self.bytes.as_slice().split_at(self.at);
        let count = rest.len().min(buf.len());
        let (piece, _) = rest.split_at(count);
        let (prefix, _) = buf.split_at_mut(count);
        prefix.copy_from_slice(piece);
        self.at += count;
        Ok(count)
    }
}
