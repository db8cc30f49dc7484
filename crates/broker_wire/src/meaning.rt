//! What a message of a live peer comes to.
ghost use Rattle.std.specs.Prelude.{◌≡◌, ℕ, option_map, IfOk};
ghost use Rattle.wl_proto.specs.Reading.{Gives, request_reading};
ghost use Rattle.wl_proto.specs.Rows.{request_message};
ghost use Rattle.relay_core.specs.Stands.{StandsFor};
ghost use Rattle.broker_model.specs.Ids.{Joined, Past, object_at};
ghost use Rattle.broker_model.specs.Requests.{arguments_of};
ghost use Rattle.broker_model.specs.Refusals as refusals;
ghost use Rattle.broker_model.specs.Resolve as resolve;
ghost use Rattle.broker_model.specs.Waiting.{takes_token};
ghost use Rattle.broker_wire.specs.Asked.{asked, HasText, IsSurface};
ghost use Rattle.broker_wire.specs.Meant.{IsTableOf, meant};

use crate::acts::act_of;
use crate::requests::{Argument, Beside, new_object, object_argument, own_fault};
use crate::tokens::takes_token;
use broker_model::{LAST_ID, MOST_LIVE, Table};
use relay_core::Relay;
use relay_model::{Act, Fault, Label, Role};
use std::alloc::Global;
use wl_proto::{Interface, Refuse, Request, read_request};
use wl_wire::{NoMemory, Raw};

/// What a message comes to: its act, what it makes under an id, and whether it takes a token.
#[derive(Drop)]
pub struct Meaning {
    /// The act.
    pub act: Act,
    /// The id under which an object is made, and its interface, if one is.
    pub made: Option<Argument>,
    /// The message takes the first token that waits for its sender.
    pub takes_token: bool,
}

/// The peer that sent a message: its label, its role, its objects, and the tokens that wait for its
/// messages.
#[derive(Drop)]
pub struct Sender<'a> {
    /// The peer's label.
    pub label: Label,
    /// Its role.
    pub role: Role,
    /// Its objects, by their ids.
    pub table: &'a Table,
    /// The tokens that wait.
    pub tokens: &'a [u32],
}

// The two have one name.
fn is_interface(a: Interface, b: Interface) -> bool
    ensures { result ≡ refusals.is_interface a b }
{
    a.name() == b.name()
}

// The fault, where the test holds.
fn fault_if(test: bool, fault: Fault) -> Option<Fault>
    ensures { result ≡ refusals.fault_if test fault }
{
    if test { Some(fault) } else { None }
}

// The argument names no live object of its interface.
fn is_wrong(table: &Table, argument: Argument) -> bool
    ensures { (past : Past) (p : ℕ) → IsTableOf past p table.now →
        result ≡ refusals.is_wrong past p (asked argument) }
{
    match table.find(argument.id) {
        Some((interface, _)) => !is_interface(interface, argument.interface),
        None => true,
    }
}

// The object argument is 0, isn't live, or is of another interface.
fn argument_fault(table: &Table, request: &Request) -> Option<Fault>
    ensures { (past : Past) (p : ℕ) → IsTableOf past p table.now →
        let m = request_message request.now in
        result ≡ refusals.argument_fault past p (arguments_of m.interface m.opcode m.values) }
{
    match object_argument(request) {
        Some(argument) => fault_if(is_wrong(table, argument), Fault::Argument),
        None => None,
    }
}

// The id is 0, in the server's range, or live.
fn is_bad_id(table: &Table, id: u32) -> bool
    ensures { (past : Past) (p : ℕ) → IsTableOf past p table.now →
        result ≡ refusals.is_bad_id past p id }
{
    id == 0 || id > LAST_ID || table.find(id).is_some()
}

// Why the new id is refused.
fn new_fault(table: &Table, new: Option<Argument>) -> Option<Fault>
    ensures { (past : Past) (p : ℕ) → IsTableOf past p table.now →
        result ≡ refusals.new_fault past p (option_map asked new) }
{
    let new = new?;
    if is_bad_id(table, new.id) {
        Some(Fault::NewId)
    } else {
        fault_if(table.len() > MOST_LIVE, Fault::TooMany)
    }
}

// The label that an id names, or the shell's.
fn label_at(table: &Table, id: u32) -> Label
    ensures { (past : Past) (p : ℕ) → IsTableOf past p table.now →
        result ≡ resolve.label_at past p id }
{
    match table.find(id) {
        Some((_, label)) => label,
        None => 0,
    }
}

// Where a popup is asked for, the label of its surface.
fn surface_of(table: &Table, request: &Request) -> Label
    ensures { (past : Past) (p : ℕ) → IsTableOf past p table.now →
        IsSurface (resolve.label_at past p) request.now result }
{
    match request {
        Request::GetInputPopupSurface { surface, .. } => label_at(table, *surface),
        _ => 0,
    }
}

// Why a body is no request of the interface.
fn refuse_fault(refuse: Refuse) -> Fault
    ensures { result ≡ refusals.refuse_fault refuse }
{
    match refuse {
        Refuse::Opcode => Fault::Opcode,
        Refuse::Malformed => Fault::Malformed,
    }
}

// A refused message of the peer to its object.
fn refused_for(peer: Label, object: Label, fault: Fault) -> Meaning
    ensures { (n : ℕ) → meant peer n result ≡ resolve.refused_for peer object fault }
{
    let object = match fault {
        Fault::Capability | Fault::Role | Fault::NoKeymap => object,
        Fault::Size
        | Fault::Object
        | Fault::Opcode
        | Fault::Malformed
        | Fault::Argument
        | Fault::NewId
        | Fault::TooMany
        | Fault::Bind => peer,
    };
    Meaning {
        act: Act::Bad {
            peer,
            fault,
            object,
        },
        made: None,
        takes_token: false,
    }
}

// The request that the body is, by the rows of the interface. A descriptor is the first token. Its
// text was read as one.
fn read<'a>(
    interface: Interface,
    opcode: u16,
    tokens: &[u32],
    body: &'a [u8],
) -> Result<Request<'a>, Refuse>
    ensures gives { Gives request_message result
        (request_reading interface opcode tokens.now body.now) }
    ensures text { IfOk result HasText }
{
    let raw = Raw {
        id: 0,
        opcode,
        body,
    };
    read_request(interface, &raw, tokens)
}

// The first fault of a request: its object argument, its new id, and what is its own. `surface` is
// what `surface_of` gives.
fn request_fault(
    relay: &Relay,
    sender: &Sender,
    object: Label,
    request: &Request,
    surface: Label,
) -> Option<Fault>
    ensures { (past : Past) →
        let p = sender.now.label in
        let at = resolve.label_at past p in
        IsTableOf past p sender.now.table.now → StandsFor relay.now past.acts →
        IsSurface at request.now surface →
        result ≡ refusals.request_fault past p object sender.now.role at
        (request_message request.now) }
{
    let argument = argument_fault(sender.table, request);
    let new = new_fault(sender.table, new_object(request));
    let beside = Beside {
        has_popup: relay.has_popup(surface),
        has_keymap: relay.has_keymap(object),
    };
    let own = own_fault(request, sender.role, beside);
    argument.or(new.or(own))
}

// What a request to the object comes to.
fn request_meaning(
    alloc: Global,
    relay: &Relay,
    sender: &Sender,
    object: Label,
    request: &Request,
) -> Result<Meaning, NoMemory>
    requires { HasText request.now }
    ensures { (past : Past) (n : ℕ) →
        let p = sender.now.label in
        let role = sender.now.role in
        let m = request_message request.now in
        let fault = refusals.request_fault past p object role (resolve.label_at past p) m in
        IsTableOf past p sender.now.table.now → StandsFor relay.now past.acts →
        IfOk result (λ meaning. meant p n meaning
        ≡ resolve.of_request past n (record { label = p; role = role }) object m fault) }
{
    let surface = surface_of(sender.table, request);
    match request_fault(relay, sender, object, request, surface) {
        Some(fault) => Ok(refused_for(sender.label, object, fault)),
        None => Ok(Meaning {
            act: act_of(alloc, request, sender.label, object, sender.role, surface)?,
            made: new_object(request),
            takes_token: false,
        }),
    }
}

// The same meaning of a message that takes a token, or takes none.
fn taking(meaning: Meaning, takes_token: bool) -> Meaning
    ensures { result ≡ record meaning { takes_token = takes_token } }
{
    Meaning {
        act: meaning.act,
        made: meaning.made,
        takes_token,
    }
}

/// What a message of a live peer comes to, by the tokens that wait for it. `NoMemory` comes where
/// there is none for a copy of a text.
pub fn meaning_of(
    alloc: Global,
    relay: &Relay,
    sender: &Sender,
    id: u32,
    opcode: u16,
    body: &[u8],
) -> Result<Meaning, NoMemory>
    ensures means { (past : Past) (n : ℕ) →
        let p = sender.now.label in
        let peer : Joined = record { label = p; role = sender.now.role } in
        IsTableOf past p sender.now.table.now → StandsFor relay.now past.acts →
        sender.now.tokens.now ≡ past.waiting p →
        IfOk result (λ meaning. meant p n meaning
        ≡ resolve.of_message past n peer opcode body.now (object_at past p id)) }
    ensures takes { (past : Past) →
        let p = sender.now.label in
        IsTableOf past p sender.now.table.now →
        IfOk result (λ meaning. meaning.takes_token ≡ takes_token (object_at past p id) opcode) }
{
    let Some((interface, object)) = sender.table.find(id) else {
        let meaning = refused_for(sender.label, sender.label, Fault::Object);
        return Ok(taking(meaning, false));
    };
    let takes = takes_token(interface, opcode);
    match read(interface, opcode, sender.tokens, body) {
        Ok(request) => {
            let meaning = request_meaning(alloc, relay, sender, object, &request)?;
            Ok(taking(meaning, takes))
        }
        Err(refuse) => {
            let meaning = refused_for(sender.label, object, refuse_fault(refuse));
            Ok(taking(meaning, takes))
        }
    }
}
