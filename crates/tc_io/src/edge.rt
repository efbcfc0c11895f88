ghost use Rattle.std.specs.Prelude.{◌≡◌, ◌<◌, ◌≤◌, length, take, None, IfOk, OnOk};
ghost use Rattle.std.specs.Io.KnownBytes.{Appends, ReadConsumes};
ghost use Rattle.tc_io.specs.Sink.{IsWritten};
ghost use Rattle.tc_io.specs.Source.{IsRead};

use crate::sink::Sink;
use crate::source::{Failed, Source};
use std::io::{ErrorKind, Read, Write};
use std::marker::Model;

/// How often a call that a signal interrupted is tried, before the interruption counts as a fault.
const TRIES: u32 = 64;

/// Any reader of std as a source. It tells nothing of its bytes, and counts the reader's errors.
#[derive(Drop)]
pub struct StdSource<T> {
    reader: T,
    faults: u64,
}

impl<T> Model for StdSource<T> {
    ghost use Rattle.tc_io.specs.Edge.{Counted};

    ghost Value = { Counted T };

    ghost view = { λ source. record { inner = source.reader; faults = source.faults } };
}

impl<T> StdSource<T> {
    pub fn new(reader: T) -> Self
        ensures { result ≡ record { inner = reader; faults = 0 } }
    {
        StdSource { reader, faults: 0 }
    }
}

impl<T: Read> Source for StdSource<T> {
    ghost left = { λ _. None };

    ghost faults = { λ source. source.faults };

    fn read(&mut self, buf: &mut [u8]) -> Result<usize, Failed>
        ensures read { IsRead self.old.faults self.new.faults None None buf.new result }
        ensures uncounted { OnOk result (self.new.faults ≡ self.old.faults) }

        // What the reader gave, where std tells, is what came, to the byte and to the end.
        ensures passed { ReadConsumes (T.remaining self.old.inner) (T.remaining self.new.inner) result buf.new }
    {
        let result = read_uninterrupted(&mut self.reader, buf);
        if result.is_err() {
            self.faults = self.faults.saturating_add(1);
        }
        result
    }
}

#[tactic(auto, using(crate::proofs::Passing::passing))]
fn read_uninterrupted<T: Read>(reader: &mut T, buf: &mut [u8]) -> Result<usize, Failed>
    ensures within { IfOk result (λ count. count ≤ length buf.new) }
    ensures passed { ReadConsumes (T.remaining reader.old) (T.remaining reader.new) result buf.new }
{
    'tries: for _ in 0..TRIES {
        match reader.read(buf) {
            Ok(count) => return Ok(count),
            Err(error) if error.kind() == ErrorKind::Interrupted => {}
            Err(_) => return Err(Failed),
        }
    }
    Err(Failed)
}

/// Any writer of std as a sink. It tells nothing of its bytes, and counts the writer's errors, to
/// which a writer that takes no byte of a piece belongs. What it took it hands on at once.
#[derive(Drop)]
pub struct StdSink<T> {
    writer: T,
    faults: u64,
}

impl<T> Model for StdSink<T> {
    ghost use Rattle.tc_io.specs.Edge.{Counted};

    ghost Value = { Counted T };

    ghost view = { λ sink. record { inner = sink.writer; faults = sink.faults } };
}

impl<T> StdSink<T> {
    pub fn new(writer: T) -> Self
        ensures { result ≡ record { inner = writer; faults = 0 } }
    {
        StdSink { writer, faults: 0 }
    }
}

impl<T: Write> Sink for StdSink<T> {
    ghost taken = { λ _. None };

    ghost faults = { λ sink. sink.faults };

    fn write(&mut self, bytes: &[u8]) -> Result<usize, Failed>
        ensures written { IsWritten self.old.faults self.new.faults None None bytes.now result }
        ensures uncounted { OnOk result (self.new.faults ≡ self.old.faults) }

        // What was taken the writer got, where std tells.
        ensures passed { IfOk result (λ n. Appends (T.contents self.old.inner) (T.contents self.new.inner)
            (take n bytes.now)) }
    {
        let result = write_uninterrupted(&mut self.writer, bytes);
        if result.is_err() {
            self.faults = self.faults.saturating_add(1);
        }
        result
    }
}

#[tactic(auto, using(crate::proofs::Passing::passing))]
fn write_uninterrupted<T: Write>(writer: &mut T, bytes: &[u8]) -> Result<usize, Failed>
    ensures within { IfOk result (λ count. count ≤ length bytes.now) }
    ensures some { IfOk result (λ count. 0 < length bytes.now → 0 < count) }
    ensures passed { IfOk result (λ n. Appends (T.contents writer.old) (T.contents writer.new) (take n bytes.now)) }
{
    'tries: for _ in 0..TRIES {
        match writer.write(bytes) {
            Ok(0) if !bytes.is_empty() => return Err(Failed),
            Ok(count) => {
                return match writer.flush() {
                    Ok(()) => Ok(count),
                    Err(_) => Err(Failed),
                };
            }
            Err(error) if error.kind() == ErrorKind::Interrupted => {}
            Err(_) => return Err(Failed),
        }
    }
    Err(Failed)
}
