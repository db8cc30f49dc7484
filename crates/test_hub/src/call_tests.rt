//! Each call of the hub once: a peer joins, asks, takes and ends, a key passes, and all is copied. A call that memory is
//! refused to is made again where it was, and answers as one that was never refused: `rt try --test --fail-alloc N`
//! refuses the Nth allocation.
ghost use Rattle.std.specs.Prelude.{◌≡◌, ◌≤◌, IfOk, IfSome};
ghost use Rattle.hub_lock.specs.Passes.{IsOf};

use crate::equal::{equal, equal_at};
use crate::peer::{LIMITS, step_of};
use broker_core::{Applied, Refused, Route, Took};
use broker_steps::{PeerStep, ShellStep};
use hub_lock::{Hub, HubPass, NoSession, Pass, ReaderPass, Session, ShellPass, WriterPass};
use relay_model::{EndCause, Role};
use std::alloc::Global;
use std::process::Abort;
use std::sync::Wait;
use std::test::Fail;
use wio_core::NoMemory;

/// A hub and its passes.
#[derive(Drop)]
struct Passes<'a> {
    hub: &'a Hub,
    root: HubPass,
    reader: ReaderPass,
    writer: WriterPass,
    shell: ShellPass,
    ghost makes: { IsOf hub.now root },
    ghost reads: { IsOf hub.now reader.seat },
    ghost writes: { IsOf hub.now writer.seat },
    ghost orders: { IsOf hub.now shell },
}

/// A call: of a message, or of none.
#[derive(Clone, Copy, Debug)]
enum Call {
    Submit(&'static [u8]),
    SubmitOwn(&'static [u8]),
    Gone,
    Key,
    Take,
    WaitTake,
    TakeInto,
    WaitTakeInto,
}

/// What it answers: of a take besides how many bytes and tokens the room then lends that it was given.
#[derive(Clone, Copy, Debug, PartialEq, Eq)]
enum Answer {
    Applied(Result<Applied, Refused>),
    Took(Took, usize, usize),
}

const KEY: ShellStep = ShellStep::Key {
    time: 5,
    key: 30,
    state: 1,
};

/// The peer asks for its registry, under this id and another: 112 bytes are then stored for it.
const ASK: [u8; 12] = [1, 0, 0, 0, 1, 0, 12, 0, 2, 0, 0, 0];

const ASK_AGAIN: [u8; 12] = [1, 0, 0, 0, 1, 0, 12, 0, 3, 0, 0, 0];

static CALLS: [(Call, Answer); 12] = [
    (Call::Take, Answer::Took(Took::Empty, 0, 0)),
    (
        Call::Submit(&ASK),
        Answer::Applied(Ok(Applied {
            entry: 2,
            route: None,
        })),
    ),
    (Call::Take, Answer::Took(Took::Bytes(112, 0), 0, 0)),
    (Call::Take, Answer::Took(Took::Empty, 0, 0)),
    (
        Call::SubmitOwn(&ASK_AGAIN),
        Answer::Applied(Ok(Applied {
            entry: 4,
            route: None,
        })),
    ),
    (
        Call::WaitTakeInto,
        Answer::Took(Took::Bytes(112, 0), 112, 0),
    ),
    (Call::TakeInto, Answer::Took(Took::Empty, 0, 0)),
    (
        Call::Key,
        Answer::Applied(Ok(Applied {
            entry: 6,
            route: Some(Route::Pass),
        })),
    ),
    // The link ends: nothing is to be taken then, and no step is accepted.
    (
        Call::Gone,
        Answer::Applied(Ok(Applied {
            entry: 7,
            route: None,
        })),
    ),
    (Call::Take, Answer::Took(Took::Closed, 0, 0)),
    (Call::WaitTake, Answer::Took(Took::Closed, 0, 0)),
    (
        Call::Gone,
        Answer::Applied(Err(Refused::Ended(EndCause::Gone))),
    ),
];

// A call of the reader's pass, or of the shell's.
fn give<R: Wait>(
    rt: &R,
    alloc: Global,
    passes: &mut Passes<'_>,
    call: Call,
) -> Result<Applied, Refused> {
    match call {
        Call::Submit(message) => match step_of(alloc, message) {
            Some(step) => passes.hub.submit(rt, &mut passes.reader, &step),
            None => Err(Refused::NoMemory),
        },
        Call::SubmitOwn(message) => match step_of(alloc, message) {
            Some(step) => passes.hub.submit_own(rt, &mut passes.reader, step),
            None => Err(Refused::NoMemory),
        },
        Call::Key => passes.hub.order(rt, &mut passes.shell, &KEY),
        _ => passes.hub.submit(rt, &mut passes.reader, &PeerStep::Gone),
    }
}

// A call of the writer's.
fn take<R: Wait>(rt: &R, passes: &mut Passes<'_>, call: Call) -> Answer {
    let mut room = passes.hub.room();
    let hub = passes.hub;
    let writer = &mut passes.writer;
    let took = match call {
        Call::WaitTake => hub.wait_take(rt, writer, &mut [0; 200], &mut [0; 256]),
        Call::TakeInto => hub.take_into(rt, writer, &mut room),
        Call::WaitTakeInto => hub.wait_take_into(rt, writer, &mut room),
        _ => hub.take(rt, writer, &mut [0; 200], &mut [0; 256]),
    };
    Answer::Took(took, room.bytes().len(), room.tokens().len())
}

fn answer_of<R: Wait>(rt: &R, alloc: Global, passes: &mut Passes<'_>, call: Call) -> Answer {
    match call {
        Call::Submit(_) | Call::SubmitOwn(_) | Call::Gone | Call::Key => {
            Answer::Applied(give(rt, alloc, passes, call))
        }
        _ => take(rt, passes, call),
    }
}

// All calls, each once more where memory was refused to it.
fn call_all<R: Abort + Wait>(rt: &R, alloc: Global, passes: &mut Passes<'_>) {
    for (call, wanted) in &CALLS {
        let got = match answer_of(rt, alloc, passes, *call) {
            Answer::Applied(Err(Refused::NoMemory)) | Answer::Took(Took::NoMemory, _, _) => {
                answer_of(rt, alloc, passes, *call)
            }
            got => got,
        };
        equal_at(rt, call, got, *wanted);
    }
}

// What each pass has counted, and has seen.
fn check_counts<R: Abort>(rt: &R, passes: &Passes<'_>) {
    let (reader, writer, shell) = (&passes.reader, &passes.writer, &passes.shell);
    equal(
        rt,
        (reader.peer(), reader.steps(), reader.seen()),
        (1, 3, 7),
    );
    equal(
        rt,
        (writer.peer(), writer.steps(), writer.seen()),
        (1, 2, 7),
    );
    equal(rt, writer.bytes(), 224);
    equal(rt, (shell.steps(), shell.seen()), (1, 6));
}

// The number of the pass whose call made each step.
const AUTHORS: [(u32, u64); 7] = [(1, 0), (2, 1), (3, 2), (4, 1), (5, 2), (6, 3), (7, 1)];

// All passes come back, and all is as it stands.
fn finish<R: Abort + Wait>(rt: &R, passes: Passes<'_>) -> Result<(), NoSession> {
    let Passes {
        hub,
        mut root,
        reader,
        writer,
        shell,
    } = passes;
    hub.finish(&mut root, Pass::Reader(reader));
    hub.finish(&mut root, Pass::Writer(writer));
    hub.finish(&mut root, Pass::Shell(shell));
    equal(rt, (root.made(), root.steps(), root.bytes()), (3, 7, 224));
    let session = copy(rt, hub, &mut root)?;
    equal(
        rt,
        (session.limits, session.journal.len(), root.seen()),
        (LIMITS, 7, 7),
    );
    for &(number, author) in &AUTHORS {
        let found = session.stamps.entry(number).map(|stamp| stamp.author);
        equal_at(rt, &number, found, Some(author));
    }
    Ok(())
}

fn copy<R: Wait>(rt: &R, hub: &Hub, root: &mut HubPass) -> Result<Session, NoSession>
    requires own { IsOf hub.now root.old }
    ensures own { IsOf hub.now root.new }
{
    match hub.session(rt, root) {
        Err(_refused) => hub.session(rt, root),
        copied => copied,
    }
}

fn join<R: Wait>(rt: &R, hub: &Hub, root: &mut HubPass) -> Option<(ReaderPass, WriterPass)>
    requires own { IsOf hub.now root.old }
    ensures own { IsOf hub.now root.new }
    ensures reads { IfSome result (λ both. IsOf hub.now both.0.seat) }
    ensures writes { IfSome result (λ both. IsOf hub.now both.1.seat) }
{
    if root.made() > 3 {
        return None;
    }
    match hub.join(rt, root, Role::App) {
        Err(_refused) => hub.join(rt, root, Role::App).ok(),
        Ok(joined) => Some(joined),
    }
}

fn passes_of<'a, R: Wait>(rt: &R, hub: &'a Hub, root: HubPass) -> Option<Passes<'a>>
    requires own { IsOf hub.now root }
{
    let mut root = root;
    let (reader, writer) = join(rt, hub, &mut root)?;
    if root.made() > 3 {
        return None;
    }
    let shell = hub.shell(&mut root);
    Some(Passes {
        hub,
        root,
        reader,
        writer,
        shell,
    })
}

fn new_hub(alloc: Global) -> Result<(Hub, HubPass), NoMemory>
    ensures own { IfOk result (λ made. IsOf made.0 made.1) }
{
    match Hub::new(alloc, LIMITS) {
        Err(NoMemory) => Hub::new(alloc, LIMITS),
        made => made,
    }
}

#[test]
fn each_call_answers(rt: HostRuntime) -> Result<(), Fail> {
    let alloc = rt.alloc();
    let (hub, root) = new_hub(alloc)?;
    let Some(mut passes) = passes_of(&rt, &hub, root) else {
        return Err(Fail::new("no peer joined"));
    };
    call_all(&rt, alloc, &mut passes);
    check_counts(&rt, &passes);
    finish(&rt, passes)?;
    Ok(())
}
