//! What the threads of a run do: the task worker, and a sender for each capture.
ghost use Rattle.std.specs.Prelude.{◌≡◌, ◌<◌, ℕ, length, slice_index_or};
ghost use Rattle.std.specs.List.{AllWithin};
ghost use Rattle.ifl_line.specs.Jobs.{MayDo, HasDone, MayBegin, HasEnded};

use crate::line::Line;
use crate::running::{Runner, run_one};
use crate::working::{Worker, work};
use ifl_desc::DescRing;
use ifl_outside::Gate;
use std::sync::Wait;
use std::thread::{Threads, for_each_mut};

/// What one thread of a run does.
#[derive(Drop)]
pub enum Task<'a, R: DescRing> {
    /// Serves the adapter.
    Work(Worker<'a, R>),
    /// Sends one capture.
    Send(Runner<'a, R>),
    /// Nothing any more: its hands were taken in.
    Done,
}

/// What one thread of a run does, and over which line.
#[derive(Drop)]
pub struct Job<'l, 'a, R: DescRing> {
    pub(crate) line: &'l Line<'a, R>,
    pub(crate) task: Task<'a, R>,
}

// Does one task, to its end.
fn run_task<'a, R: DescRing, W: Wait, G: Gate>(
    rt: &W,
    line: &Line<'a, R>,
    gate: &G,
    task: &mut Task<'a, R>,
)
    requires { MayDo line.now task.old }
    ensures { HasDone line.now task.old task.new }
{
    match task {
        Task::Work(worker) => work(rt, line, gate, worker),
        Task::Send(runner) => run_one(rt, line, gate, runner),
        Task::Done => {}
    }
}

// Does one job, to its end.
fn run_job<'l, 'a, R: DescRing, W: Wait, G: Gate>(rt: &W, gate: &G, job: &mut Job<'l, 'a, R>)
    requires { MayBegin job.old }
    ensures { HasEnded job.old job.new }
{
    run_task(rt, job.line, gate, &mut job.task);
}

/// Runs all jobs, each in a thread of its own where one can be made. It takes no memory.
pub fn run_jobs<'l, 'a, R: DescRing, T: Threads + Wait + Sync, G: Gate>(
    rt: &T,
    gate: &G,
    jobs: &mut [Job<'l, 'a, R>],
)
    requires { AllWithin (λ (x : _). MayBegin x) jobs.old 0 (length jobs.old) }
    ensures long { length jobs.new ≡ length jobs.old }
    ensures done { (i : ℕ) (d : _) → i < length jobs.old → HasEnded (slice_index_or jobs.old i d) (slice_index_or jobs.new i d) }
{
    let threads = jobs.len();
    if threads == 0 {
        return;
    }
    for_each_mut(
        rt,
        jobs,
        threads,
        &|_i: usize, x: &mut Job<R>|
            requires { MayBegin x.now }
            ensures { HasEnded x.entry.now x.exit.now }
        { run_job(rt, gate, x) },
    );
}
