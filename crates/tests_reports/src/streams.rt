use crate::expect::expect_same;
use std::alloc::Global;
use std::io::Cursor;
use std::test::Fail;
use tc_io::{
    Bytes, FreeGate, Gate, Gather, ReadError, StdSink, StdSource, Stopped, SureBytes, SureGather,
    put_decimal, put_hex8, read_all, write_all,
};

fn listed(alloc: Global, number: u32) -> Result<Vec<u32>, Fail> {
    Ok(Vec::from_slice(alloc, &[number])?)
}

fn letters(alloc: Global) -> Result<Vec<u8>, Fail> {
    Ok(Vec::from_slice(alloc, b"abcde")?)
}

#[test]
fn puts_decimals(rt: HostRuntime) -> Result<(), Fail> {
    let rows = [
        (7, "7"),
        (0, "0"),
        (-1, "-1"),
        (i64::MIN, "-9223372036854775808"),
    ];
    for (value, want) in rows {
        let mut text = Vec::new(rt.alloc());
        put_decimal(&mut text, value)?;
        expect_same(&rt, (value, text.as_slice()), (value, want.as_bytes()));
    }
    Ok(())
}

#[test]
fn puts_words(rt: HostRuntime) -> Result<(), Fail> {
    for (value, want) in [
        (0x8584_0000, "85840000"),
        (8, "00000008"),
        (0xfeed_cafe, "feedcafe"),
    ] {
        let mut text = Vec::new(rt.alloc());
        put_hex8(&mut text, value)?;
        expect_same(&rt, (value, text.as_slice()), (value, want.as_bytes()));
    }
    Ok(())
}

#[test]
fn reads_up_to_the_limit(rt: HostRuntime) -> Result<(), Fail> {
    let alloc = rt.alloc();
    let exact = read_all(alloc, &mut SureBytes::new(letters(alloc)?), 5)?;
    expect_same(&rt, exact.as_slice(), b"abcde");
    let passed = read_all(alloc, &mut SureBytes::new(letters(alloc)?), 4);
    expect_same(&rt, passed.err(), Some(ReadError::TooLong));
    let mut cursor = StdSource::new(Cursor::new(letters(alloc)?));
    let whole = read_all(alloc, &mut cursor, 5)?;
    expect_same(&rt, whole.as_slice(), b"abcde");
    Ok(())
}

/// The letters, where the read of a number fails.
fn failing_source(alloc: Global, number: u32) -> Result<Bytes, Fail> {
    Ok(Bytes::new(letters(alloc)?, listed(alloc, number)?))
}

#[test]
fn fails_the_listed_reads(rt: HostRuntime) -> Result<(), Fail> {
    let alloc = rt.alloc();
    for number in [0, 1] {
        let mut source = failing_source(alloc, number)?;
        let fault = read_all(alloc, &mut source, 5).err();
        expect_same(&rt, (number, fault), (number, Some(ReadError::ReadFault)));
    }
    let mut source = failing_source(alloc, 2)?;
    let whole = read_all(alloc, &mut source, 5)?;
    expect_same(&rt, whole.as_slice(), b"abcde");
    Ok(())
}

/// A sink that takes one byte a call and so many in all, where the write of a number fails.
fn failing_sink(alloc: Global, room: usize, number: u32) -> Result<Gather, Fail> {
    Ok(Gather::new(alloc, 1, room, listed(alloc, number)?)?)
}

#[test]
fn fails_the_listed_writes(rt: HostRuntime) -> Result<(), Fail> {
    let alloc = rt.alloc();
    let text = b"abcde";
    for number in 0..5 {
        let mut sink = failing_sink(alloc, 9, number)?;
        let written = number as usize;
        expect_same(&rt, write_all(&mut sink, text), Err(Stopped { written }));
        let (prefix, _) = text.split_at(written);
        expect_same(&rt, (number, sink.kept()), (number, prefix));
    }
    let mut sink = failing_sink(alloc, 3, 5)?;
    expect_same(&rt, write_all(&mut sink, text), Ok(()));
    expect_same(&rt, sink.kept(), b"abc");
    expect_same(&rt, sink.rest(), 2);
    Ok(())
}

#[test]
fn writes_everything(rt: HostRuntime) -> Result<(), Fail> {
    let alloc = rt.alloc();
    let mut sink = SureGather::new(alloc, 5)?;
    expect_same(&rt, write_all(&mut sink, b"abcde"), Ok(()));
    expect_same(&rt, sink.kept(), b"abcde");
    expect_same(&rt, sink.rest(), 0);
    let mut out = Vec::new(alloc);
    let mut writer = StdSink::new(&mut out);
    expect_same(&rt, write_all(&mut writer, b"abcde"), Ok(()));
    expect_same(&rt, out.as_slice(), b"abcde");
    FreeGate.at(0, 17);
    Ok(())
}
