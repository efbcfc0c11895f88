use crate::top::tccode;
use std::alloc::Global;
use std::fmt::Debug;
use std::process::Abort;
use std::test::Fail;
use tc_io::{Bytes, Gather, SureBytes, SureGather};
use tc_word::Text;

/// A job of one core whose task is in assembly.
const ASSEMBLY: &[u8] =
    b"version = 1\ncores = 1\nslot = 6\ncycles = 100\n[[task]]\ncore = 0\nlang = \"asm\"\nsource = \".func main; addi r1 = r0, 7; ret; nop; nop; nop\"\n";

/// Four loops of 65,535 iterations around one another, whose bound is past the largest;
/// and a number past 32 bits, at byte 20.
const LONG: &[u8] =
    b"version = 1\ncores = 1\nslot = 6\ncycles = 1000\n[[task]]\ncore = 0\nlang = \"c\"\nsource = '''int main() { _Pragma(\"loopbound min 0 max 65535\") while (0) { _Pragma(\"loopbound min 0 max 65535\") while (0) { _Pragma(\"loopbound min 0 max 65535\") while (0) { _Pragma(\"loopbound min 0 max 65535\") while (0) { } } } } return 0; }'''\n";

const WIDE: &[u8] =
    b"version = 1\ncores = 1\nslot = 6\ncycles = 1000\n[[task]]\ncore = 0\nlang = \"c\"\nsource = \"int main() { return 4294967296; }\"\n";

const USAGE: &[u8] = b"usage: tccode\n";

/// Compares the status and the bytes written of these words with what is wanted, over an input and an output that never
/// fail.
fn expect_answer(
    rt: &impl Abort,
    alloc: Global,
    given: &[&str],
    input: &[u8],
    status: u8,
    text: &[u8],
) -> Result<(), Fail> {
    let mut source = SureBytes::new(Vec::from_slice(alloc, input)?);
    let mut sink = SureGather::new(alloc, 20_000)?;
    let mut words = Vec::new(alloc);
    for word in given {
        words.push(Text::of(String::from_str(alloc, word)?))?;
    }
    let told = tccode(alloc, words.as_slice(), &mut source, &mut sink);
    expect_same(rt, (told, sink.kept()), (status, text));
    Ok(())
}

/// Ends the test, and shows both, where they are not the same. A comparison that stands in the test itself takes several
/// times as long to prove.
fn expect_same<T: PartialEq + Debug + Drop>(rt: &impl Abort, got: T, want: T) {
    assert_eq!(rt; got, want);
}

#[test]
fn assembly_tasks_have_no_code(rt: HostRuntime) -> Result<(), Fail> {
    expect_answer(&rt, rt.alloc(), &[], ASSEMBLY, 0, b"")
}

#[test]
fn jobs_and_programs_are_refused(rt: HostRuntime) -> Result<(), Fail> {
    for (input, status, text) in [
        (
            b"version = 3\n".as_slice(),
            2,
            b"job: Range version\n".as_slice(),
        ),
        (LONG, 4, b"core 0: Long\n"),
        (WIDE, 4, b"core 0: Wide at 20\n"),
    ] {
        expect_answer(&rt, rt.alloc(), &[], input, status, text)?;
    }
    Ok(())
}

#[test]
fn words_are_answered_with_usage(rt: HostRuntime) -> Result<(), Fail> {
    for words in [["code"].as_slice(), &["run"], &["--help", "x"]] {
        expect_answer(&rt, rt.alloc(), words, ASSEMBLY, 1, USAGE)?;
    }
    Ok(())
}

#[test]
fn a_fault_of_the_outside_is_answered(rt: HostRuntime) -> Result<(), Fail> {
    for (read, write, status, text) in [(0, 9, 5, b"read fault\n".as_slice()), (9, 0, 6, b"")] {
        let mut source = Bytes::new(
            Vec::from_slice(rt.alloc(), WIDE)?,
            vec![in rt.alloc(); read]?,
        );
        let mut sink = Gather::new(rt.alloc(), 200, 200, vec![in rt.alloc(); write]?)?;
        let words = Vec::<Text>::new(rt.alloc());
        let told = tccode(rt.alloc(), words.as_slice(), &mut source, &mut sink);
        expect_same(&rt, (told, sink.kept()), (status, text));
    }
    Ok(())
}
