//! The passes of all jobs come back, and their logs stay.
ghost use Rattle.std.specs.Prelude.{◌≡◌, ◌++◌, IfOk, OnOk};
ghost use Rattle.hub_lock.specs.Passes.{IsOf};
ghost use Rattle.trial_typing.specs.FieldGoing.{IsFieldOf};
ghost use Rattle.trial_jobs.specs.declared.job.TrialJob.TheVariants as jobs;
ghost use Rattle.trial_jobs.specs.MethodGoing.{IsMethodOf};
ghost use Rattle.trial_threads.specs.Jobs.{IsJobOf, AreJobsOf, field_log_of, method_log_of};
ghost use Rattle.trial_threads.specs.Back.{TookBack, TookAllBack};

use crate::give_back;
use crate::running::Running;
use crate::trial::FieldLogs;
use hub_lock::{Hub, HubPass, Pass};
use std::alloc::Global;
use trial_client_logs::MethodLog;
use trial_jobs::{MethodJob, TrialJob};
use trial_typing::FieldJob;
use wio_core::NoMemory;

/// What happened to the fields, in order, and to the method.
#[derive(Drop)]
pub(crate) struct Logs {
    pub fields: FieldLogs,
    pub method: MethodLog,
}

// The passes of a field's job come back, and its log stays.
fn take_back_field(
    logs: &mut Logs,
    hub: &Hub,
    root: &mut HubPass,
    job: FieldJob,
) -> Result<(), NoMemory>
    requires own { IsOf hub.now root.old }
    requires of { IsFieldOf hub.now job }
    ensures own { IsOf hub.now root.new }
    ensures back { TookBack root.old root.new (jobs.Field job) }
    ensures fields { OnOk result (logs.new.fields ≡ logs.old.fields ++ field_log_of (jobs.Field job)) }
    ensures method { logs.new.method ≡ logs.old.method }
{
    give_back(hub, root, job.reader, job.writer);
    logs.fields.push(job.log)
}

// So do those of the method's.
fn take_back_method(logs: &mut Logs, hub: &Hub, root: &mut HubPass, job: MethodJob)
    requires own { IsOf hub.now root.old }
    requires of { IsMethodOf hub.now job }
    ensures own { IsOf hub.now root.new }
    ensures back { TookBack root.old root.new (jobs.Method job) }
    ensures fields { logs.new.fields ≡ logs.old.fields }
    ensures method { logs.new.method ≡ method_log_of (jobs.Method job) logs.old.method }
{
    give_back(hub, root, job.reader, job.writer);
    logs.method = job.log;
}

// The passes of a job come back, and its log stays.
fn take_back(logs: &mut Logs, hub: &Hub, root: &mut HubPass, job: TrialJob) -> Result<(), NoMemory>
    requires own { IsOf hub.now root.old }
    requires of { IsJobOf hub.now job }
    ensures own { IsOf hub.now root.new }
    ensures back { TookBack root.old root.new job }
    ensures fields { OnOk result (logs.new.fields ≡ logs.old.fields ++ field_log_of job) }
    ensures method { OnOk result (logs.new.method ≡ method_log_of job logs.old.method) }
{
    match job {
        TrialJob::Field(job) => take_back_field(logs, hub, root, job),
        TrialJob::Method(job) => {
            take_back_method(logs, hub, root, job);
            Ok(())
        }
        TrialJob::Shell(job) => {
            hub.finish(root, Pass::Shell(job.pass));
            Ok(())
        }
    }
}

/// The passes of all jobs come back.
pub(crate) fn collect(
    alloc: Global,
    hub: &Hub,
    root: &mut HubPass,
    jobs: Vec<Running>,
) -> Result<Logs, NoMemory>
    requires own { IsOf hub.now root.old }
    requires of { AreJobsOf hub.now jobs.items }
    ensures own { IsOf hub.now root.new }
    ensures back { IfOk result (λ logs.
        TookAllBack root.old root.new jobs.items logs.fields logs.method) }
{
    let mut logs = Logs {
        fields: FieldLogs::new(alloc),
        method: MethodLog::new(alloc),
    };
    let mut left = jobs;
    while !left.is_empty() {
        let running = left.remove(0);
        take_back(&mut logs, hub, root, running.job)?;
    }
    Ok(logs)
}
