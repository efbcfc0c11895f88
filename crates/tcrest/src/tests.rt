use crate::top::tcrest;
use std::alloc::Global;
use std::fmt::Debug;
use std::process::Abort;
use std::sync::Wait;
use std::test::Fail;
use std::thread::Threads;
use tc_io::{Bytes, FreeGate, Gate, Gather, SureBytes, SureGather};
use tc_word::Text;

/// A job of one core whose task needs 17 cycles, of which two transactions are listed.
const JOB: &[u8] =
    b"version = 1\ncores = 1\nslot = 6\ncycles = 100000\ntrace = 4\n[[task]]\ncore = 0\nlang = \"asm\"\nsource = \".func main; addi r1 = r0, 7; ret; nop; nop; nop\"\n";

/// The words of its code.
const LISTING: &[u8] =
    b"core 0 words 6\n00000005\n00020007\n05400000\n00000000\n00000000\n00000000\n";

/// Of two cores, core 0 stores 5 in a word of shared memory, and core 1 loads it twice. The task of core 1
/// is written first.
pub const SHARING: &[u8] =
    b"version = 1\ncores = 2\nslot = 6\ncycles = 100000\n[[task]]\ncore = 1\nlang = \"asm\"\nsource = \".func main; addl r2 = r0, 0x01000000; lwm r3 = [r2 + 0]; nop; lwm r4 = [r2 + 0]; ret; sli r3 = r3, 4; add r1 = r3, r4; nop\"\n[[task]]\ncore = 0\nlang = \"asm\"\nstart = 12\nsource = \".func main; addl r2 = r0, 0x01000000; addi r3 = r0, 5; swm [r2 + 0] = r3; ret; nop; nop; nop\"\n";

const REPORT: &[u8] =
    b"platform cores 1 slot 6 period 6\ncore 0 done 7 cycles 17\ncore 0 access 0 read 4\ncore 0 access 6 read 2\n";

pub const SHARING_REPORT: &[u8] =
    b"platform cores 2 slot 6 period 12\ncore 0 done 0 cycles 46\ncore 1 done 5 cycles 64\n";

/// The two routers of two cores, which send to one another in each slot.
const SCHEDULE: &[u8] =
    b"columns = 2\nrows = 1\nlength = 1\nentries = [[0, 0, 1, 9], [0, 1, 0, 9]]\n";

const SCHEDULE_REPORT: &[u8] =
    b"grid columns 2 rows 1 length 1\nok\nlatency 1 words 12\nlatency 512 words 777\n";

/// Two C tasks: the sum of 0 to 9, cut off by its bound on core 1, which ends with what C leaves undefined in `out`.
const PROGRAMS: &[u8] =
    b"version = 1\ncores = 2\nslot = 6\ncycles = 10000\n[[task]]\ncore = 1\nlang = \"c\"\nsource = '''int out[6]; int main() { int s = 0; int i = 0; _Pragma(\"loopbound min 5 max 5\") while (i < 10) { s = s + i; i = i + 1; } out[0] = -7 / 2; out[1] = -7 % 2; out[2] = 5 / 0; out[3] = 5 % 0; out[4] = (0 - 2147483647 - 1) / -1; out[5] = 1 << 33; return s; }'''\n[[task]]\ncore = 0\nlang = \"c\"\nsource = '''int main() { int s = 0; int i = 0; _Pragma(\"loopbound min 10 max 10\") while (i < 10) { s = s + i; i = i + 1; } return s; }'''\n";

const MEANINGS: &[u8] =
    b"core 0 mean 45\ncore 1 mean 10 overrun\ncore 1 out 0 -3\ncore 1 out 1 -1\ncore 1 out 2 0\ncore 1 out 3 5\ncore 1 out 4 -2147483648\ncore 1 out 5 2\n";

/// Four loops of 65,535 iterations, one inside another, whose bound is past the largest;
/// and a number past 32 bits, at byte 20.
const LONG: &[u8] =
    b"version = 1\ncores = 1\nslot = 6\ncycles = 1000\n[[task]]\ncore = 0\nlang = \"c\"\nsource = '''int main() { _Pragma(\"loopbound min 0 max 65535\") while (0) { _Pragma(\"loopbound min 0 max 65535\") while (0) { _Pragma(\"loopbound min 0 max 65535\") while (0) { _Pragma(\"loopbound min 0 max 65535\") while (0) { } } } } return 0; }'''\n";

const WIDE: &[u8] =
    b"version = 1\ncores = 1\nslot = 6\ncycles = 1000\n[[task]]\ncore = 0\nlang = \"c\"\nsource = \"int main() { return 4294967296; }\"\n";

/// A task of five bundles, whose first five steps are reported; one that goes on after its
/// function's end; and what their five stages hold.
const STAGES_JOB: &[u8] =
    b"version = 1\ncores = 1\nslot = 6\ncycles = 1000\ntrace = 5\n[[task]]\ncore = 0\nlang = \"asm\"\nsource = \".func main; addi r1 = r0, 7; ret; nop; nop; nop\"\n";

const STOPPED_JOB: &[u8] =
    b"version = 1\ncores = 1\nslot = 6\ncycles = 1000\ntrace = 9\n[[task]]\ncore = 0\nlang = \"asm\"\nsource = \".func main; nop\"\n";

const STAGES: &[u8] =
    b"platform cores 1 slot 6 period 6\nstep 12 F 3 D 2 E 1 M - W -\nstep 13 F 4 D 3 E 2 M 1 W -\nstep 14 F 5 D 4 E 3 M 2 W 1\nstep 15 F - D 5 E 4 M 3 W 2\nstep 16 F - D - E 5 M 4 W 3\ncore 0 done 7 cycles 17\n";

const STOPPED_STAGES: &[u8] =
    b"platform cores 1 slot 6 period 6\nstep 6 F - D - E 1 M - W -\ncore 0 trap 4 at 7\n";

const USAGE: &[u8] = b"usage: tcrest run|bound|asm|mean|gen N|bench N|pipe|grid|persist\n";

fn words_of(alloc: Global, given: &[&str]) -> Result<Vec<Text>, Fail> {
    let mut words = Vec::new(alloc);
    for word in given {
        words.push(Text::of(String::from_str(alloc, word)?))?;
    }
    Ok(words)
}

/// The status and the bytes written, over an input and an output that never fail.
pub fn answer_to<R: Threads + Wait + Sync>(
    rt: &R,
    alloc: Global,
    given: &[&str],
    input: &[u8],
) -> Result<(u8, SureGather), Fail> {
    answer_under(rt, alloc, given, input, &FreeGate)
}

/// The status and the bytes of an answer, where a gate may hold the workers.
pub fn answer_under<R: Threads + Wait + Sync, G: Gate + Sync>(
    rt: &R,
    alloc: Global,
    given: &[&str],
    input: &[u8],
    gate: &G,
) -> Result<(u8, SureGather), Fail> {
    let mut source = SureBytes::new(Vec::from_slice(alloc, input)?);
    let mut sink = SureGather::new(alloc, 20_000)?;
    let words = words_of(alloc, given)?;
    let status = tcrest(alloc, rt, words.as_slice(), &mut source, &mut sink, gate);
    Ok((status, sink))
}

/// Ends the test, and shows both, where they are not the same. A comparison that stands in the test itself takes several
/// times as long to prove.
pub fn expect_same<T: PartialEq + Debug + Drop>(rt: &impl Abort, got: T, want: T) {
    assert_eq!(rt; got, want);
}

/// Compares the status and the bytes written of these words with what is wanted.
fn expect_answer<R: Threads + Wait + Sync + Abort>(
    rt: &R,
    alloc: Global,
    given: &[&str],
    input: &[u8],
    status: u8,
    text: &[u8],
) -> Result<(), Fail> {
    let (told, sink) = answer_to(rt, alloc, given, input)?;
    expect_same(rt, (told, sink.kept()), (status, text));
    Ok(())
}

/// The status and the bytes written of `run`, over an input that fails at one call and an output that
/// takes `most` bytes a call and fails at one.
fn run_failing<R: Threads + Wait + Sync>(
    rt: &R,
    alloc: Global,
    failing_read: u32,
    most: usize,
    failing_write: u32,
) -> Result<(u8, Gather), Fail> {
    let most = most.max(1);
    let failing = vec![in alloc; failing_read]?;
    let mut source = Bytes::new(Vec::from_slice(alloc, JOB)?, failing);
    let mut sink = Gather::new(alloc, most, 200, vec![in alloc; failing_write]?)?;
    let words = words_of(alloc, &["run"])?;
    let status = tcrest(
        alloc,
        rt,
        words.as_slice(),
        &mut source,
        &mut sink,
        &FreeGate,
    );
    Ok((status, sink))
}

/// A number of a call that never comes.
const NEVER: u32 = 1_000_000;

#[test]
fn inputs_are_answered(rt: HostRuntime) -> Result<(), Fail> {
    for (word, input, text) in [
        ("run", JOB, REPORT),
        ("bound", JOB, b"platform cores 1 slot 6 period 6\n"),
        ("persist", JOB, b"platform cores 1 slot 6 period 6\n"),
        ("asm", JOB, LISTING),
        ("asm", PROGRAMS, b""),
        ("grid", SCHEDULE, SCHEDULE_REPORT),
        ("mean", JOB, b""),
        ("mean", PROGRAMS, MEANINGS),
    ] {
        expect_answer(&rt, rt.alloc(), &[word], input, 0, text)?;
    }
    Ok(())
}

#[test]
fn programs_are_refused_alike(rt: HostRuntime) -> Result<(), Fail> {
    for (input, text) in [
        (LONG, b"core 0: Long\n".as_slice()),
        (WIDE, b"core 0: Wide at 20\n"),
    ] {
        for word in ["run", "bound", "asm", "mean", "pipe", "persist"] {
            expect_answer(&rt, rt.alloc(), &[word], input, 4, text)?;
        }
    }
    Ok(())
}

#[test]
fn generated_jobs_are_run(rt: HostRuntime) -> Result<(), Fail> {
    for number in ["0", "4294967295"] {
        let (made, text) = answer_to(&rt, rt.alloc(), &["gen", number], b"")?;
        let (ran, report) = answer_to(&rt, rt.alloc(), &["run"], text.kept())?;
        expect_same(&rt, (made, ran), (0, 0));
        expect_answer(&rt, rt.alloc(), &["bench", number], b"", 0, report.kept())?;
    }
    for number in ["", "-1", "+1", "1 ", "0x1", "00000000001", "4294967296"] {
        for word in ["gen", "bench"] {
            expect_answer(&rt, rt.alloc(), &[word, number], b"", 1, USAGE)?;
        }
    }
    Ok(())
}

#[test]
fn stages_are_told_of_a_core_alone(rt: HostRuntime) -> Result<(), Fail> {
    for (input, status, text) in [
        (STAGES_JOB, 0, STAGES),
        (STOPPED_JOB, 3, STOPPED_STAGES),
        (SHARING, 2, b"job: OneCore\n"),
    ] {
        expect_answer(&rt, rt.alloc(), &["pipe"], input, status, text)?;
    }
    Ok(())
}

#[test]
fn other_words_are_answered_with_usage(rt: HostRuntime) -> Result<(), Fail> {
    for word in [
        "gen", "bench", "bounds", "persists", "means", "run x", "Run", "--help",
    ] {
        expect_answer(&rt, rt.alloc(), &[word], JOB, 1, USAGE)?;
    }
    expect_answer(&rt, rt.alloc(), &["run", "x"], JOB, 1, USAGE)?;
    expect_answer(&rt, rt.alloc(), &[], JOB, 1, USAGE)?;
    expect_answer(&rt, rt.alloc(), &["gen", "1", "1"], JOB, 1, USAGE)
}

#[test]
fn a_job_text_has_a_limit(rt: HostRuntime) -> Result<(), Fail> {
    for (length, text) in [
        (1_048_577, b"job: TooLong\n".as_slice()),
        (1_048_576, b"job: Missing version\n"),
    ] {
        let spaces = vec![in rt.alloc(); b' '; length]?;
        expect_answer(&rt, rt.alloc(), &["run"], spaces.as_slice(), 2, text)?;
    }
    Ok(())
}

#[test]
fn a_read_that_fails_is_answered(rt: HostRuntime) -> Result<(), Fail> {
    for (read, most, write, status, text) in [
        (0, 200, NEVER, 5, b"read fault\n".as_slice()),
        (1, 200, NEVER, 5, b"read fault\n"),
        (0, 4, 1, 6, b"read"),
    ] {
        let (told, sink) = run_failing(&rt, rt.alloc(), read, most, write)?;
        expect_same(&rt, (told, sink.kept()), (status, text));
    }
    Ok(())
}

#[test]
fn a_write_that_fails_leaves_a_prefix(rt: HostRuntime) -> Result<(), Fail> {
    let (status, sink) = run_failing(&rt, rt.alloc(), NEVER, 10, 1)?;
    expect_same(&rt, (status, sink.kept()), (6, b"platform c".as_slice()));
    for call in 0..103u32 {
        let (status, sink) = run_failing(&rt, rt.alloc(), NEVER, 1, call)?;
        let (prefix, _) = REPORT.split_at((call as usize).min(REPORT.len()));
        expect_same(&rt, (status, sink.kept()), (6, prefix));
    }
    let (status, sink) = run_failing(&rt, rt.alloc(), NEVER, 1, 103)?;
    expect_same(&rt, (status, sink.kept()), (0, REPORT));
    Ok(())
}
