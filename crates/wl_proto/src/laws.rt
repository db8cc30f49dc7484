//! What holds of every row, each law proved where its function stands. The bodies are empty: the laws are contracts.
ghost use Rattle.wl_proto.specs.Laws.{OneList, SpelledAgain, Rise, HasRow, WrittenWhole};
ghost use Rattle.wl_proto.specs.Rows.{request_kinds, event_kinds, request_rows, event_rows};
ghost use Rattle.wl_proto.specs.Rows.{request_message, event_message};
ghost use Rattle.wl_proto.specs.declared.request.Request as requests;
ghost use Rattle.wl_proto.specs.declared.event.Event as events;

/// Two value lists of one body differ at most in a descriptor, and the spelling of a value list is spelled by it.
pub fn row_laws()
    ensures one_request { OneList request_kinds }
    ensures one_event { OneList event_kinds }
    ensures request_again { SpelledAgain request_kinds }
    ensures event_again { SpelledAgain event_kinds }
{}

/// The opcodes of each table rise.
pub fn opcodes_rise()
    ensures requests { Rise request_rows }
    ensures events { Rise event_rows }
{}

/// Each request and each event has a row, and its fields are arguments of the kinds of that row.
pub fn each_has_its_row()
    ensures requests { (request : requests.Request) → HasRow request_kinds (request_message
        request) }
    ensures events { (event : events.Event) → HasRow event_kinds (event_message event) }
{}

/// What is written is one whole message of the wire, with the id, the opcode and the body that were put into it.
pub fn written_messages_are_whole()
    ensures { WrittenWhole }
{}
