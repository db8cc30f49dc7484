//! The server over Unix sockets and threads.
use crate::open_gate::OpenGate;
use serve_run::{ServeStatus, run_serve};
use serve_unix::{LinkJob, Sink, ThreadSpawner, UnixNet, UnixSink, UnixSource, begin_job};
use std::alloc::Global;
use std::fs::{File, Files};
use std::net::Net;
use std::sync::{Arc, Wait};
use std::thread::Threads;

/// Serves what the words ask for over real sockets, and writes the recorded session.
pub fn serve<R: Threads + Wait + Files<File = File> + Net + Copy + Send + Sync + 'static, K: Sink>(
    rt: R,
    alloc: Global,
    words: &[String],
    output: &mut K,
) -> ServeStatus {
    let Ok(gate) = Arc::new(alloc, OpenGate) else {
        return ServeStatus::NoMemory;
    };
    let mut net = UnixNet::new(rt, alloc);
    let mut spawner = ThreadSpawner::new(
        rt,
        alloc,
        move |job: LinkJob<UnixSource, UnixSink, OpenGate>| begin_job(rt, alloc, job),
    );
    run_serve(&rt, alloc, words, &mut net, &mut spawner, &gate, output)
}
