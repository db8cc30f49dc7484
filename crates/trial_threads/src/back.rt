//! The passes of a peer come back.
ghost use Rattle.hub_lock.specs.Passes.{IsOf};
ghost use Rattle.trial_threads.specs.Begun.{AreBack};

use hub_lock::{Hub, HubPass, Pass, ReaderPass, WriterPass};

/// The root takes back a peer's passes: that of its reader, and then that of its writer.
/// It takes no memory.
pub fn give_back(hub: &Hub, root: &mut HubPass, reader: ReaderPass, writer: WriterPass)
    requires own { IsOf hub.now root.old }
    requires reads { IsOf hub.now reader.seat }
    requires writes { IsOf hub.now writer.seat }
    ensures { AreBack root.old root.new reader.seat writer.seat }
{
    hub.finish(root, Pass::Reader(reader));
    hub.finish(root, Pass::Writer(writer));
}
