//! What the slow evaluator of the relay's rules tells the fields of a session.
use crate::told::recorded;
use broker_model::Entry;
use compose_method::Text;
use program_run::{Edits, Form, Line, Player, Watch, read_line};
use relay_core::Relay;
use relay_plain::{Act, Mods, Said, Told, copy_of_act};
use std::alloc::Global;
use std::mem::replace;
use std::test::Fail;
use trial_client_logs::FieldEntry;
use trial_threads::Session;

/// The acts of the entries of a journal.
#[derive(Drop)]
struct ActList {
    alloc: Global,
    acts: Vec<Act>,
    lacks: bool,
}

impl Watch for ActList {
    ghost may_follow = { λ before event after. Unit {0} };

    fn entered(&mut self, _number: u32, _entry: &Entry, act: &Act, _relay: &Relay) {
        match copy_of_act(self.alloc, act) {
            Ok(act) => self.lacks |= self.acts.push(act).is_err(),
            Err(_) => self.lacks = true,
        }
    }

    fn placed(&mut self, _number: u32, _peer: u32, _id: u32, _x: i64, _y: i64) {}

    fn passed(&mut self, _number: u32, _time: u32, _key: u32, _state: u32) {}

    fn modified(&mut self, _number: u32, _mods: Mods) {}

    fn put(&mut self, _number: u32, _peer: u32, _bytes: &[u8], _tokens: &[(usize, u32)]) {}
}

/// The acts of the recorded session, with those of the ends that follow.
pub fn acts_in(alloc: Global, session: &Session) -> Result<Vec<Act>, Fail> {
    let record = recorded(alloc, session)?;
    let mut player: Option<Player> = None;
    let mut list = ActList {
        alloc,
        acts: Vec::new(alloc),
        lacks: false,
    };
    for line in record.held().split(|byte| *byte == 10) {
        match (read_line(alloc, Form::Session2, line), &mut player) {
            (Ok(Line::Header(limits)), None) => player = Some(Player::new(alloc, limits)?),
            (Ok(Line::Stamped(stamp, line)), Some(player)) => {
                if player.line_watched(&line, stamp, &mut list).is_err() {
                    return Err(Fail::new("a line isn't played"));
                }
            }
            _ => {}
        }
    }
    if list.lacks {
        return Err(Fail::new("memory lacked"));
    }
    Ok(list.acts)
}

/// The label of the field that the peer of the number made, the first one; 0 where there is none.
pub fn field_of_peer(acts: &[Act], number: u32) -> u32 {
    let (mut label, mut peers, mut own) = (0u32, 0u32, 0u32);
    for act in acts {
        label = label.saturating_add(1);
        match act {
            Act::Peer => {
                peers = peers.saturating_add(1);
                if peers == number {
                    own = label;
                }
            }
            Act::Field { peer } if *peer == own => return label,
            _ => {}
        }
    }
    0
}

// No edits.
fn none(alloc: Global) -> Edits {
    Edits {
        before: 0,
        after: 0,
        string: Text::empty(alloc),
        preedit: Text::empty(alloc),
        begin: 0,
        end: 0,
    }
}

// One thing that a field is told: what a log of it has then, if it has something.
fn heard(alloc: Global, edits: &mut Edits, event: &Said) -> Result<Option<FieldEntry>, Fail> {
    match event {
        Said::Enter { .. } => return Ok(Some(FieldEntry::Enter)),
        Said::Leave { .. } => return Ok(Some(FieldEntry::Leave)),
        Said::Delete { before, after } => {
            edits.before = *before;
            edits.after = *after;
        }
        Said::CommitString { text } => edits.string = text.copy(alloc)?,
        Said::Preedit { text, begin, end } => {
            edits.preedit = text.copy(alloc)?;
            edits.begin = *begin;
            edits.end = *end;
        }
        Said::FieldDone { serial } => {
            let whole = replace(edits, none(alloc));
            return Ok(Some(FieldEntry::Batch(whole, *serial)));
        }
        _ => return Err(Fail::new("a field is told something else")),
    }
    Ok(None)
}

/// What the field with the label is told, a line for each thing, as `told_in` writes them.
pub fn told_to(alloc: Global, told: &[Told], field: u32) -> Result<String, Fail> {
    let mut text = String::new(alloc);
    let mut edits = none(alloc);
    for Told { to, event } in told {
        if *to != field {
            continue;
        }
        if let Some(entry) = heard(alloc, &mut edits, event)? {
            text.push_str(format!(in alloc; "{entry:?}\n")?.as_str())?;
        }
    }
    Ok(text)
}
