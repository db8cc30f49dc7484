//! An event as numbers, in the form in which a program in C has it.
ghost use Rattle.std.specs.Prelude.{◌≡◌};
ghost use Rattle.relay_core.specs.Bounds.{text_of};
ghost use Rattle.c_relay.specs.Events.{kind_of, numbers, grouped, arguments, event_of, hidden_event};
ghost use Rattle.c_relay.specs.KeptPopups.{tells_place};

use relay_model::{Label, Said, Told};

/// An event without its text. `kind` says which event it is, and what its arguments are, in the protocol's order; the
/// others are 0.
#[repr(C)]
#[derive(Clone, Copy, Debug, PartialEq, Eq)]
pub struct Event {
    /// One of `kind`.
    pub kind: u32,
    /// The label of the object that it is told to; 0 is the shell.
    pub to: u32,
    /// How many bytes its text has; 0 where it has none.
    pub length: usize,
    /// The event's first argument beside a text, as `kind` says.
    pub first: i64,
    /// The second.
    pub second: i64,
    /// The third.
    pub third: i64,
    /// The fourth.
    pub fourth: i64,
    /// The group of `MODS` and `VMODS`.
    pub group: i64,
}

/// What `Event::kind` may be.
pub mod kind {
    /// `zwp_text_input_v3.enter`: the surface.
    pub const ENTER: u32 = 1;

    /// `zwp_text_input_v3.leave`: the surface.
    pub const LEAVE: u32 = 2;

    /// `zwp_text_input_v3.preedit_string`, with a text: where its cursor begins and ends.
    pub const PREEDIT: u32 = 3;

    /// `zwp_text_input_v3.commit_string`, with a text.
    pub const COMMIT_STRING: u32 = 4;

    /// `zwp_text_input_v3.delete_surrounding_text`: how many bytes before the cursor and after it.
    pub const DELETE: u32 = 5;

    /// `zwp_text_input_v3.done`: the serial.
    pub const FIELD_DONE: u32 = 6;

    /// `zwp_input_method_v2.activate`.
    pub const ACTIVATE: u32 = 7;

    /// `zwp_input_method_v2.deactivate`.
    pub const DEACTIVATE: u32 = 8;

    /// `zwp_input_method_v2.surrounding_text`, with a text: the cursor and the anchor.
    pub const SURROUNDING: u32 = 9;

    /// `zwp_input_method_v2.text_change_cause`: the cause.
    pub const CHANGE_CAUSE: u32 = 10;

    /// `zwp_input_method_v2.content_type`: the hint and the purpose.
    pub const CONTENT_TYPE: u32 = 11;

    /// `zwp_input_method_v2.done`.
    pub const METHOD_DONE: u32 = 12;

    /// `zwp_input_method_v2.unavailable`.
    pub const UNAVAILABLE: u32 = 13;

    /// `zwp_input_popup_surface_v2.text_input_rectangle`: x, y, width and height.
    pub const POPUP_RECT: u32 = 14;

    /// `zwp_input_method_keyboard_grab_v2.keymap`: the format, the embedder's number and the size.
    pub const KEYMAP: u32 = 15;

    /// `zwp_input_method_keyboard_grab_v2.key`: the serial, the time, the key and its state.
    pub const KEY: u32 = 16;

    /// `zwp_input_method_keyboard_grab_v2.modifiers`: the serial, what is depressed, latched and locked. The group is
    /// in `group`.
    pub const MODS: u32 = 17;

    /// `zwp_input_method_keyboard_grab_v2.repeat_info`: the rate and the delay.
    pub const REPEAT: u32 = 18;

    /// To the shell, of a key that no grab has: the time, the key and its state.
    pub const PASS: u32 = 19;

    /// To the shell, of a popup: its label, x and y on the screen.
    pub const PLACED: u32 = 20;

    /// To the shell, of modifiers of a board that no grab has: what is depressed, latched and locked. The group is in
    /// `group`.
    pub const VMODS: u32 = 21;

    /// To the shell, of a popup that was shown: its label. It isn't any more, until it is placed again.
    pub const HIDDEN: u32 = 22;
}

// Which event it is, of those that are told to objects that a compositor has; none of those that only a
// link of ours needs: globals, callbacks, freed ids, capabilities and errors.
fn kind_of(said: &Said) -> Option<u32>
    ensures { result ≡ kind_of said.now }
{
    match said {
        Said::Enter { .. } => Some(kind::ENTER),
        Said::Leave { .. } => Some(kind::LEAVE),
        Said::Preedit { .. } => Some(kind::PREEDIT),
        Said::CommitString { .. } => Some(kind::COMMIT_STRING),
        Said::Delete { .. } => Some(kind::DELETE),
        Said::FieldDone { .. } => Some(kind::FIELD_DONE),
        Said::Activate => Some(kind::ACTIVATE),
        Said::Deactivate => Some(kind::DEACTIVATE),
        Said::Surrounding { .. } => Some(kind::SURROUNDING),
        Said::ChangeCause { .. } => Some(kind::CHANGE_CAUSE),
        Said::ContentType { .. } => Some(kind::CONTENT_TYPE),
        Said::MethodDone => Some(kind::METHOD_DONE),
        Said::Unavailable => Some(kind::UNAVAILABLE),
        Said::PopupRect { .. } => Some(kind::POPUP_RECT),
        Said::Keymap(_) => Some(kind::KEYMAP),
        Said::Key { .. } => Some(kind::KEY),
        Said::Mods { .. } => Some(kind::MODS),
        Said::Repeat(_) => Some(kind::REPEAT),
        Said::Pass { .. } => Some(kind::PASS),
        Said::Placed { .. } => Some(kind::PLACED),
        Said::VMods(_) => Some(kind::VMODS),
        Said::Global { .. }
        | Said::CallbackDone { .. }
        | Said::DeleteId { .. }
        | Said::Capabilities { .. }
        | Said::Error { .. } => None,
    }
}

/// The bytes of the event's text; none where it has no text.
pub fn text_of(said: &Said) -> &[u8]
    ensures { result.now ≡ text_of said.now }
{
    match said {
        Said::Preedit { text, .. } | Said::CommitString { text } | Said::Surrounding { text, .. } =>
            text.as_bytes(),
        _ => &[],
    }
}

// The numbers of an event, with no text.
fn numbers(first: i64, second: i64, third: i64, fourth: i64) -> Event
    ensures { result ≡ numbers first second third fourth }
{
    Event {
        kind: 0,
        to: 0,
        length: 0,
        first,
        second,
        third,
        fourth,
        group: 0,
    }
}

// The numbers with the group of modifiers.
fn grouped(event: Event, group: u32) -> Event
    ensures { result ≡ grouped event group }
{
    Event {
        group: i64::from(group),
        ..event
    }
}

// The arguments of the event beside a text.
fn arguments(said: &Said) -> Event
    ensures { result ≡ arguments said.now }
{
    match said {
        Said::Enter { surface } | Said::Leave { surface } => numbers(i64::from(*surface), 0, 0, 0),
        Said::Preedit { begin, end, .. } => numbers(i64::from(*begin), i64::from(*end), 0, 0),
        Said::Delete { before, after } => numbers(i64::from(*before), i64::from(*after), 0, 0),
        Said::FieldDone { serial } => numbers(i64::from(*serial), 0, 0, 0),
        Said::Surrounding { cursor, anchor, .. } => {
            numbers(i64::from(*cursor), i64::from(*anchor), 0, 0)
        }
        Said::ChangeCause { cause } => numbers(i64::from(*cause), 0, 0, 0),
        Said::ContentType { hint, purpose } => numbers(i64::from(*hint), i64::from(*purpose), 0, 0),
        Said::PopupRect {
            x,
            y,
            width,
            height,
        } => numbers(
            i64::from(*x),
            i64::from(*y),
            i64::from(*width),
            i64::from(*height),
        ),
        Said::Keymap(keymap) => numbers(
            i64::from(keymap.format),
            i64::from(keymap.token),
            i64::from(keymap.size),
            0,
        ),
        Said::Key {
            serial,
            time,
            key,
            state,
        } => numbers(
            i64::from(*serial),
            i64::from(*time),
            i64::from(*key),
            i64::from(*state),
        ),
        Said::Mods { serial, mods } => grouped(
            numbers(
                i64::from(*serial),
                i64::from(mods.depressed),
                i64::from(mods.latched),
                i64::from(mods.locked),
            ),
            mods.group,
        ),
        Said::Repeat(repeat) => numbers(i64::from(repeat.rate), i64::from(repeat.delay), 0, 0),
        Said::Pass { time, key, state } => {
            numbers(i64::from(*time), i64::from(*key), i64::from(*state), 0)
        }
        Said::Placed { popup, x, y } => numbers(i64::from(*popup), *x, *y, 0),
        Said::VMods(mods) => grouped(
            numbers(
                i64::from(mods.depressed),
                i64::from(mods.latched),
                i64::from(mods.locked),
                0,
            ),
            mods.group,
        ),
        _ => numbers(0, 0, 0, 0),
    }
}

/// The shell is told that the popup is hidden.
pub fn hidden_event(popup: Label) -> Event
    ensures { result ≡ hidden_event popup }
{
    Event {
        kind: kind::HIDDEN,
        ..numbers(i64::from(popup), 0, 0, 0)
    }
}

/// Whether it is told where a popup stands.
pub fn tells_place(told: &Told) -> bool
    ensures { result ≡ tells_place told.now }
{
    matches!(told.event, Said::Placed { .. })
}

/// What is told as numbers, with the length of its text; none for what only a link of ours needs.
pub fn event_of(told: &Told) -> Option<Event>
    ensures { result ≡ event_of told.now }
{
    let kind = kind_of(&told.event)?;
    let length = text_of(&told.event).len();
    Some(Event {
        kind,
        to: told.to,
        length,
        ..arguments(&told.event)
    })
}
