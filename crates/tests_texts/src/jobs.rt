use crate::expect::expect_same;
use std::alloc::Global;
use std::test::Fail;
use tc_job::{Job, Lang, read_job};
use tc_toml::{JobError, put_fault};

/// The line in which the fault of a text is reported, or `a job`.
fn reported(alloc: Global, text: &str) -> Result<Vec<u8>, JobError> {
    match read_job(alloc, text.as_bytes()) {
        Ok(_) => Ok(Vec::from_slice(alloc, b"a job")?),
        Err(error) => line_of(alloc, &error),
    }
}

fn line_of(alloc: Global, error: &JobError) -> Result<Vec<u8>, JobError> {
    let JobError::Fault { kind, task, key } = error else {
        return Err(JobError::Memory);
    };
    let mut line = Vec::new(alloc);
    put_fault(&mut line, *kind, *task, key.as_str())?;
    Ok(line)
}

#[test]
fn tells_a_fault_of_each_place(rt: HostRuntime) -> Result<(), Fail> {
    let cases = [
        ("", b"job: Missing version".as_slice()),
        ("zeta = 1\neta = 2\nversion = 3", b"job: Key eta"),
        (
            "version = 1\ntask = [{ kore = 1 }]\ncores = 1\nslot = 6\ncycles = 1",
            b"job: Key task 0 kore",
        ),
    ];
    for (text, want) in cases {
        let line = reported(rt.alloc(), text)?;
        expect_same(&rt, (text, line.as_slice()), (text, want));
    }
    Ok(())
}

/// The core, the language, the start, the text and the input of the only task of a job.
fn only_task(job: &Job) -> Option<(u32, Lang, u64, &str, &[u32])> {
    let [task] = job.tasks.as_slice() else {
        return None;
    };
    Some((
        task.core,
        task.lang,
        task.start,
        task.source.as_str(),
        task.input.as_slice(),
    ))
}

/// A job of version 1 with one task, of core 1.
const ONE_TASK: &str =
    "version = 1\ncores = 2\nslot = 6\ncycles = 9\n[[task]]\ncore = 1\nlang = \"c\"\nsource = \"\"\n";

#[test]
fn reads_a_job_of_version_1(rt: HostRuntime) -> Result<(), Fail> {
    let job = read_job(rt.alloc(), ONE_TASK.as_bytes())?;
    expect_same(&rt, (job.version, job.cores, job.slot), (1, 2, 6));
    expect_same(&rt, job.table.as_slice(), &[0, 1]);
    expect_same(&rt, (job.cycles, job.trace, job.workers), (9, 0, 2));
    let task = (1, Lang::C, 0, "", [].as_slice());
    expect_same(&rt, only_task(&job), Some(task));
    Ok(())
}

#[test]
fn reads_a_job_of_version_2(rt: HostRuntime) -> Result<(), Fail> {
    let text =
        "version = 2\ncores = 3\nslot = 64\ntable = [0, 1, 0, 2]\ncycles = 20_000_000\ntrace = 65536\nworkers = 1\n\
        [[task]]\ncore = 2\nlang = \"asm\"\nsource = \"ret\"\ninput = [-1, 7]\nstart = 12\n";
    let job = read_job(rt.alloc(), text.as_bytes())?;
    expect_same(&rt, (job.version, job.cores, job.slot), (2, 3, 64));
    expect_same(&rt, job.table.as_slice(), &[0, 1, 0, 2]);
    expect_same(
        &rt,
        (job.cycles, job.trace, job.workers),
        (20_000_000, 65_536, 1),
    );
    let task = (2, Lang::Asm, 12, "ret", [0xffff_ffff, 7].as_slice());
    expect_same(&rt, only_task(&job), Some(task));
    Ok(())
}
