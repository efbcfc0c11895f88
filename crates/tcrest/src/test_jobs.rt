//! Jobs of several cores, for the tests of threads. Their reports are known from outside; the folder `cases/` at the
//! top of the repository has many more, which the gate runs through the program.
use std::alloc::Global;
use std::test::Fail;

/// Two cores and three, with slots of 6 cycles.
pub const TWO: &str = "version = 1\ncores = 2\nslot = 6\ncycles = 100000";

pub const THREE: &str = "version = 1\ncores = 3\nslot = 6\ncycles = 100000";

/// Stores 5 in the first word of shared memory.
pub const STORE: &str =
    "addl r2 = r0, 0x01000000; addi r3 = r0, 5; swm [r2 + 0] = r3; ret; nop; nop; nop";

/// Loads the first word of shared memory twice. The first value counts sixteen times in the result.
pub const TWO_LOADS: &str =
    "addl r2 = r0, 0x01000000; lwm r3 = [r2 + 0]; nop; lwm r4 = [r2 + 0]; ret; sli r3 = r3, 4; add r1 = r3, r4; nop";

/// Stores 17 in the first byte of shared memory.
pub const STORE_BYTE: &str =
    "addl r2 = r0, 0x01000000; addi r3 = r0, 17; sbm [r2 + 0] = r3; ret; nop; nop; nop";

/// Stores 34 in the second byte of shared memory, and loads the first word.
pub const STORE_BYTE_AND_LOAD: &str =
    "addl r2 = r0, 0x01000000; addi r3 = r0, 34; sbm [r2 + 1] = r3; lwm r1 = [r2 + 0]; ret; nop; nop; nop";

/// Counts down from 10,000, and loads the first word of shared memory.
const LATE_LOAD: &str =
    "addl r2 = r0, 0x01000000; addl r3 = r0, 10000; top: subi r3 = r3, 1; cmpineq p1 = r3, 0; (p1) br top; nop; nop; lwm r1 = [r2 + 0]; ret; nop; nop; nop";

/// The text of a job: what stands at its top, and of each task the keys and the source after
/// `.func main; `.
pub fn job_of(alloc: Global, head: &str, tasks: &[(&str, &str)]) -> Result<String, Fail> {
    let mut job = format!(in alloc; "{head}\n")?;
    for (keys, source) in tasks {
        let task = format!(in alloc;
            "[[task]]\nlang = \"asm\"\n{keys}\nsource = \".func main; {source}\"\n"
        )?;
        job.push_str(task.as_str())?;
    }
    Ok(job)
}

/// When core 1 starts the task that stores 5, and which value core 0 loads then.
pub const LATE_LOADS: [(u32, u32); 2] = [(50_012, 0), (50_000, 5)];

/// Core 0 loads after 50,000 cycles a word that core 1 stores.
pub fn late_load_job(alloc: Global, start: u32) -> Result<String, Fail> {
    let keys = format!(in alloc; "core = 1\nstart = {start}")?;
    job_of(
        alloc,
        TWO,
        &[("core = 0", LATE_LOAD), (keys.as_str(), STORE)],
    )
}

/// The report of that job.
pub fn late_load_report(alloc: Global, value: u32) -> Result<String, Fail> {
    let report = format!(in alloc;
        "platform cores 2 slot 6 period 12\ncore 0 done {value} cycles 50062\ncore 1 done 0 cycles 56\n"
    )?;
    Ok(report)
}

/// Cores 0 and 1 each send a word to word 7 of core 2, where they come at 78 and at 105. Core 2 loads the
/// word at 90 and at 108.
pub fn sending_job(alloc: Global) -> Result<String, Fail> {
    let first = sending(alloc, 5)?;
    let second = sending(alloc, 6)?;
    let third =
        "addl r2 = r0, 0x10000; lwm r3 = [r0 + 0]; lwl r1 = [r2 + 7]; lwm r3 = [r0 + 0]; lwl r4 = [r2 + 7]; ret; sli r1 = r1, 4; add r1 = r1, r4; nop";
    let tasks = [
        ("core = 0", first.as_str()),
        ("core = 1\nstart = 12", second.as_str()),
        ("core = 2\nstart = 20", third),
    ];
    job_of(alloc, THREE, &tasks)
}

/// The report of that job.
pub const SENDING_REPORT: &[u8] =
    b"platform cores 3 slot 6 period 18\ncore 0 done 0 cycles 73\ncore 1 done 0 cycles 85\ncore 2 done 86 cycles 93\n";

/// A task that sends a value to word 7 of core 2.
fn sending(alloc: Global, value: u32) -> Result<String, Fail> {
    let text = format!(in alloc;
        "addl r2 = r0, 0x20020; addi r3 = r0, 1; addl r4 = r0, 0x10000; addi r5 = r0, {value}; swl [r4 + 0] = r5; swl [r2 + 0] = r0; addi r6 = r0, 7; swl [r2 + 1] = r6; swl [r2 + 2] = r3; ret; nop; nop; nop"
    )?;
    Ok(text)
}
