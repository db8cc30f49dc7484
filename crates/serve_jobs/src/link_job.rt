//! The jobs of links as one type, and their results as one.
use crate::done::{ReaderDone, ShellDone, WriterDone};
use crate::job::Job;
use crate::jobs::{ReaderJob, ShellJob, WriterJob};
use crate::run::{run_reader, run_shell, run_writer};
use hub_lock::Gate;
use serve_net::{LinkSink, LinkSource};
use std::sync::Wait;
use wio_core::Source;

/// A job of a link.
#[derive(Drop)]
pub enum LinkJob<S: LinkSource, K: LinkSink, G: Gate + Drop> {
    /// To read a peer's link.
    Reader(ReaderJob<S, G>),
    /// To write to a peer's link.
    Writer(WriterJob<K>),
    /// To serve a shell's link.
    Shell(ShellJob<S, K>),
}

/// What a job of a link gives back: the pass, the link's ways, and how the loop ended.
#[derive(Drop)]
pub enum LinkDone<S: Source + Drop, K: LinkSink> {
    /// A peer's link was read.
    Reader(ReaderDone<S>),
    /// A peer's link was written to.
    Writer(WriterDone<K>),
    /// A shell's link was served.
    Shell(ShellDone<S, K>),
}

impl<S: LinkSource, K: LinkSink, G: Gate + Drop> Job for LinkJob<S, K, G> {
    ghost use Rattle.serve_jobs.specs.LinkTags.{job_tag, done_tag, done_report};

    type Done = LinkDone<S, K>;

    ghost tag = { job_tag };

    ghost done_tag = { done_tag };

    ghost report = { done_report };

    fn run<R: Wait>(self, rt: &R) -> LinkDone<S, K> {
        match self {
            LinkJob::Reader(job) => LinkDone::Reader(run_reader(rt, job)),
            LinkJob::Writer(job) => LinkDone::Writer(run_writer(rt, job)),
            LinkJob::Shell(job) => LinkDone::Shell(run_shell(rt, job)),
        }
    }
}
