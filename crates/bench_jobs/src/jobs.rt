//! The jobs, and the inputs of each.

use crate::assignments::{RuleCounts, assigned};
use crate::dice::Dice;
use crate::digest::Digest;
use crate::plays::{Plan, Shape, failures, quiet_seconds, seconds, silences, snapshots};
use crate::policies::{gadget_among, gadgets, tried};
use crate::streams::{Kind, lines_of, stream};
use command_line::{run_with, status_of};
use std::alloc::{AllocError, Global};
use std::sync::Wait;
use std::thread::Threads;
use text_engines::Watched;

/// What a user waits for.
#[derive(Clone, Copy)]
pub enum Job {
    /// Whether a policy settles, and in which ways.
    Policies,
    /// A large network starts, comes to rest, and has failures.
    Failures,
    /// Whether a network is settled, again and again.
    Snapshots,
    /// Hours in which little happens.
    Seconds,
    /// Each event of a run, to be read.
    Traces,
    /// Assignments to be judged, and captures to be decoded.
    Texts,
}

/// The jobs by their names.
pub static JOBS: [(&str, Job); 6] = [
    ("policies", Job::Policies),
    ("failures", Job::Failures),
    ("snapshots", Job::Snapshots),
    ("seconds", Job::Seconds),
    ("traces", Job::Traces),
    ("texts", Job::Texts),
];

/// A job, with the seed of its inputs and how large they are.
#[derive(Clone, Copy)]
pub struct AskedJob {
    pub job: Job,
    pub seed: u32,
    pub size: u32,
}

// So many of something for each unit of size.
fn times(size: u32, count: u32) -> u32 {
    size.saturating_mul(count).min(1_000_000)
}

// The prefixes of a size.
fn prefixes(size: u32, count: u32) -> u32 {
    size.saturating_mul(count).min(256)
}

// A job that is done: what its inputs are made of, and the digest of what was written.
#[derive(Drop)]
struct Doing<'a, R> {
    rt: &'a R,
    alloc: Global,
    dice: Dice,
    size: u32,
    digest: Digest,
}

impl<'a, R> Doing<'a, R>
where
    R: Threads + Wait + Sync,
{
    // Adds what the program writes for an input, and its status.
    fn add(&mut self, word: &str, input: &[u8]) {
        let mut reader = Watched::new(input);
        let mut writer = Watched::new(Vec::new(self.alloc));
        let ended = run_with(self.rt, self.alloc, &[word], &mut reader, &mut writer);
        self.digest.add_octets(writer.into_inner().as_slice());
        self.digest.add(status_of(ended) as u64);
    }

    fn add_policies(&mut self) -> Result<(), AllocError> {
        let text = gadgets(self.alloc, &mut self.dice, 1, times(self.size, 10_000))?;
        self.add("play", text.as_bytes());
        let text = gadgets(self.alloc, &mut self.dice, 16, times(self.size, 500))?;
        self.add("play", text.as_bytes());
        for _ in 0..times(self.size, 100) {
            let text = tried(self.alloc, &mut self.dice, 400)?;
            self.add("play", text.as_bytes());
        }
        Ok(())
    }

    fn add_failures(&mut self) -> Result<(), AllocError> {
        let plan = Plan {
            shape: Shape::Random,
            routers: 64,
            prefixes: prefixes(self.size, 16),
            rounds: times(self.size, 250),
        };
        let count = times(self.size, 2);
        for is_wide in [false, true] {
            let text = failures(self.alloc, &mut self.dice, &plan, is_wide, count)?;
            self.add("play", text.as_bytes());
        }
        Ok(())
    }

    fn add_snapshots(&mut self) -> Result<(), AllocError> {
        let size = self.size;
        let line = Plan {
            shape: Shape::Line,
            routers: 64,
            prefixes: 1,
            rounds: 200,
        };
        let text = snapshots(self.alloc, &mut self.dice, &line, true, times(size, 4))?;
        self.add("play", text.as_bytes());
        for (shape, routers, named, rounds, count) in [
            (Shape::Ring, 4, 16, 40, 16),
            (Shape::Random, 64, 4, 100, 8),
        ] {
            let plan = Plan {
                shape,
                routers,
                prefixes: prefixes(size, named),
                rounds: times(size, rounds),
            };
            let text = snapshots(self.alloc, &mut self.dice, &plan, false, times(size, count))?;
            self.add("play", text.as_bytes());
        }
        Ok(())
    }

    fn add_seconds(&mut self) -> Result<(), AllocError> {
        let mut plan = Plan {
            shape: Shape::Random,
            routers: 64,
            prefixes: prefixes(self.size, 1),
            rounds: 300,
        };
        let text = seconds(self.alloc, &mut self.dice, &plan, times(self.size, 150))?;
        self.add("play", text.as_bytes());
        let text = quiet_seconds(self.alloc, &mut self.dice, &plan, times(self.size, 100))?;
        self.add("play", text.as_bytes());
        plan.shape = Shape::Mesh;
        plan.routers = 16;
        let text = quiet_seconds(self.alloc, &mut self.dice, &plan, times(self.size, 100))?;
        self.add("play", text.as_bytes());
        plan.shape = Shape::Ring;
        plan.routers = 32;
        let text = silences(self.alloc, &mut self.dice, &plan, times(self.size, 6))?;
        self.add("play", text.as_bytes());
        Ok(())
    }

    fn add_traces(&mut self) -> Result<(), AllocError> {
        let text = gadget_among(self.alloc, &mut self.dice, 56, times(self.size, 500))?;
        self.add("trace", text.as_bytes());
        let text = gadgets(self.alloc, &mut self.dice, 4, times(self.size, 500))?;
        self.add("trace", text.as_bytes());
        let plan = Plan {
            shape: Shape::Random,
            routers: 64,
            prefixes: prefixes(self.size, 8),
            rounds: times(self.size, 150),
        };
        let text = failures(self.alloc, &mut self.dice, &plan, false, self.size)?;
        self.add("trace", text.as_bytes());
        Ok(())
    }

    // Adds what `decode` writes for streams of each kind, one of them in lines.
    fn add_streams(&mut self) -> Result<(), AllocError> {
        for (kind, count, has_lines) in [
            (Kind::Table, 100, false),
            (Kind::Session, 2000, false),
            (Kind::Table, 100, true),
            (Kind::Unknown, 90, false),
        ] {
            let text = stream(self.alloc, &mut self.dice, kind, times(self.size, count))?;
            if has_lines {
                let text = lines_of(self.alloc, text.as_str())?;
                self.add("decode", text.as_slice());
            } else {
                self.add("decode", text.as_bytes());
            }
        }
        Ok(())
    }

    fn add_texts(&mut self) -> Result<(), AllocError> {
        let wide = RuleCounts {
            routers: 64,
            prefixes: prefixes(self.size, 16),
            rules: times(self.size, 4).min(64),
            paths: 8,
        };
        let deep = RuleCounts {
            routers: 64,
            prefixes: prefixes(self.size, 4),
            rules: self.size.min(64),
            paths: 32,
        };
        for _ in 0..3 {
            let text = assigned(self.alloc, &mut self.dice, &wide)?;
            self.add("check", text.as_bytes());
            let text = assigned(self.alloc, &mut self.dice, &deep)?;
            self.add("check", text.as_bytes());
            self.add_streams()?;
        }
        Ok(())
    }
}

/// The digest of what the program writes for the inputs of a job.
pub fn digest_of<R>(rt: &R, alloc: Global, asked: &AskedJob) -> Result<u64, AllocError>
where
    R: Threads + Wait + Sync,
{
    let mut doing = Doing {
        rt,
        alloc,
        dice: Dice::new(asked.seed),
        size: asked.size,
        digest: Digest::new(),
    };
    match asked.job {
        Job::Policies => doing.add_policies()?,
        Job::Failures => doing.add_failures()?,
        Job::Snapshots => doing.add_snapshots()?,
        Job::Seconds => doing.add_seconds()?,
        Job::Traces => doing.add_traces()?,
        Job::Texts => doing.add_texts()?,
    }
    Ok(doing.digest.value())
}
