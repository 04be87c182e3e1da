//! `bench_jobs`: what users of `bgpnet` wait for, on inputs that a seed gives.
//!
//! Its words are a job, a seed below 2^32, and how large the inputs are. It makes the job's inputs, each another one, has
//! [`command_line::run_with`] answer them, and prints a digest of all that was written. `each` in place of a job does
//! every one. Its status is 2 where the words are others, and 3 where memory was wanting.
#![tactic(auto)]

mod assignments;
mod dice;
mod digest;
mod jobs;
mod networks;
mod plays;
mod policies;
mod streams;

use jobs::{AskedJob, JOBS, Job, digest_of};
use std::alloc::AllocError;
use std::process::ExitCode;
use std::sync::Wait;
use std::thread::Threads;
use std::{env, io};

// The job of a name.
fn job_of(name: &str) -> Option<Job> {
    JOBS.iter()
        .find(|(known, _)| *known == name)
        .map(|(_, job)| *job)
}

// Does a job, and prints its digest.
fn do_job<R>(rt: &R, name: &str, job: Job, seed: u32, size: u32) -> io::Result<ExitCode>
where
    R: AllocGlobal + Print + Threads + Wait + Sync,
{
    let asked = AskedJob { job, seed, size };
    match digest_of(rt, rt.alloc(), &asked) {
        Ok(digest) => {
            println!(rt; "{name} {digest:016x}")?;
            Ok(ExitCode::SUCCESS)
        }
        Err(AllocError) => {
            println!(rt; "memory")?;
            Ok(ExitCode::from(3))
        }
    }
}

fn usage(rt: &impl Print) -> io::Result<ExitCode> {
    println!(rt; "usage: bench_jobs JOB SEED SIZE")?;
    Ok(ExitCode::from(2))
}

fn main(rt: HostRuntime) -> io::Result<ExitCode> {
    let words: Vec<String> = env::args(&rt)?.skip(1).collect(rt.alloc())?;
    let [name, seed, size] = words.as_slice() else {
        return usage(&rt);
    };
    let (Ok(seed), Ok(size)) = (seed.parse::<u32>(), size.parse::<u32>()) else {
        return usage(&rt);
    };
    if let Some(job) = job_of(name.as_str()) {
        return do_job(&rt, name.as_str(), job, seed, size);
    }
    if name.as_str() != "each" {
        return usage(&rt);
    }
    for (name, job) in &JOBS {
        do_job(&rt, name, *job, seed, size)?;
    }
    Ok(ExitCode::SUCCESS)
}
