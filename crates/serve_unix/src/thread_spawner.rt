//! Jobs in threads of their own.
ghost use Rattle.std.specs.Prelude.{◌≡◌, ◌+◌, ◌≤◌, [], vec_len, vec_capacity};

use crate::job_thread::Running;
use serve_jobs::{Job, Spawner};
use std::alloc::Global;
use std::snapshot::Snapshot;
use std::sync::Wait;
use std::thread::Threads;

/// Starts a thread for each job by a call that its maker gives, and gives the results in the order
/// of the starts. What it remembers of a result takes no bytes.
#[derive(Drop)]
pub struct ThreadSpawner<J: Job, H: Running<J>, R, F: Fn(J) -> Result<H, J>> {
    rt: R,
    begin: F,
    running: Vec<H>,
    given: Vec<Snapshot<J::Done>>,
    before_start: usize,
    refusals: u64,
    ghost room: { vec_len given + vec_len running ≤ vec_capacity given },
}

impl<J: Job, H: Running<J>, R, F: Fn(J) -> Result<H, J>> ThreadSpawner<J, H, R, F> {
    /// Begins jobs by this call, which starts a thread or hands the job back. It started none yet.
    pub fn new(rt: R, alloc: Global, begin: F) -> ThreadSpawner<J, H, R, F>
        ensures given { result.given.items ≡ [] }
        ensures running { result.running.items ≡ [] }
        ensures begin { result.begin ≡ begin }
        ensures no_refusal_yet { result.refusals ≡ 0 }
        ensures none_before { result.before_start ≡ 0 }
    {
        ThreadSpawner {
            rt,
            begin,
            running: Vec::new(alloc),
            given: Vec::new(alloc),
            before_start: 0,
            refusals: 0,
        }
    }
}

impl<J: Job, H: Running<J>, R: Threads + Wait, F: Fn(J) -> Result<H, J>> Spawner<J>
    for ThreadSpawner<J, H, R, F> {
    ghost use Rattle.serve_unix.specs.Started.{reports_of, tags_of, Begins};

    ghost started = { λ s. tags_of H.tag J.done_tag s.given.items s.running.items };

    ghost reports = { λ s. reports_of J.report s.given.items };

    ghost before_start = { λ s. s.before_start };

    ghost refusal_count = { λ s. s.refusals };

    ghost ready = { λ s job. F.pre s.begin job ×
        ((r : _) → F.post s.begin job r → Begins H.tag J.tag job r) };

    fn start(&mut self, job: J) -> Result<(), J> {
        if self.running.reserve(1).is_err() || self.given.reserve(self.running.len() + 1).is_err() {
            self.refusals = self.refusals.saturating_add(1);
            return Err(job);
        }
        match (self.begin)(job) {
            Ok(child) => {
                if let Err(_full) = self.running.push(child) {
                    unreachable!()
                }
                self.before_start = self.given.len();
                Ok(())
            }
            Err(job) => {
                self.refusals = self.refusals.saturating_add(1);
                Err(job)
            }
        }
    }

    fn next_done(&mut self) -> Option<J::Done> {
        if self.running.is_empty() {
            return None;
        }
        let child = self.running.remove(0);
        let done = child.done(&self.rt);
        if let Err(_full) = self.given.push(Snapshot::of(&done)) {
            unreachable!()
        }
        Some(done)
    }

    fn refusals(&self) -> u64 {
        self.refusals
    }
}
