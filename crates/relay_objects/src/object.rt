//! What a live object is.
ghost use Rattle.std.specs.Prelude.{◌≡◌, option_map, Some, None, false};
ghost use Rattle.relay_model.specs.Objects.{is_at};
ghost use Rattle.relay_objects.specs.Listed.{is_popup_kind};
ghost use Rattle.relay_objects.specs.Objects.{area_in, refocused, field_in, is_field_in};

use field_state::Field;
use relay_model::{Label, Rect};

/// What an object is, with all that a field keeps.
#[derive(Drop)]
pub enum Kind {
    /// A client.
    Peer,
    /// With its place and size on the screen, in pixels.
    Surface { area: Rect },
    /// A text field (`zwp_text_input_v3`).
    Field(Field),
    /// An input method (`zwp_input_method_v2`).
    Method,
    /// A popup of the method on the surface (`zwp_input_popup_surface_v2`).
    Popup { method: Label, surface: Label },
    /// A keyboard grab of the method (`zwp_input_method_keyboard_grab_v2`).
    Grab { method: Label },
    /// A registry, a seat or another bound global, of which nothing is asked but whether it lives.
    Thing,
    /// A virtual keyboard (`zwp_virtual_keyboard_v1`). Its keys are kept by `virt_keys`.
    Board,
}

/// A live object and the peer that it belongs to; a peer is its own.
#[derive(Drop)]
pub struct Object {
    /// The number of the act that made it.
    pub label: Label,
    /// The peer that made it.
    pub peer: Label,
    /// What it is.
    pub kind: Kind,
}

/// What may be named is the one with the label.
pub fn is_number(slot: Option<Label>, label: Label) -> bool
    ensures { result ≡ is_at slot label }
{
    match slot {
        Some(there) => there == label,
        None => false,
    }
}

/// No place and no size.
pub const NO_AREA: Rect = Rect {
    x: 0,
    y: 0,
    width: 0,
    height: 0,
};

impl Object {
    /// It is a field.
    pub fn is_field(&self) -> bool
        ensures { result ≡ is_field_in (Some self.now) }
    {
        matches!(self.kind, Kind::Field(_))
    }

    /// What the field keeps, if it is one.
    pub fn field(&self) -> Option<&Field>
        ensures { option_map (λ f. f.now) result ≡ field_in (Some self.now) }
    {
        match &self.kind {
            Kind::Field(field) => Some(field),
            Kind::Peer
            | Kind::Surface { .. }
            | Kind::Method
            | Kind::Popup { .. }
            | Kind::Grab { .. }
            | Kind::Thing
            | Kind::Board => None,
        }
    }

    /// It is a popup.
    pub fn is_popup(&self) -> bool
        ensures { result ≡ is_popup_kind self.now.kind }
    {
        matches!(self.kind, Kind::Popup { .. })
    }

    /// It is a field that is entered. Where it isn't, leaving it changes nothing.
    pub fn is_entered(&self) -> bool
        ensures { result ≡ false → refocused None self.now ≡ self.now }
    {
        match self.field() {
            Some(field) => field.is_entered(),
            None => false,
        }
    }

    /// The place and the size on the screen, if it is a surface.
    pub fn area(&self) -> Rect
        ensures { result ≡ area_in (Some self.now) }
    {
        match &self.kind {
            Kind::Surface { area } => *area,
            Kind::Peer
            | Kind::Field(_)
            | Kind::Method
            | Kind::Popup { .. }
            | Kind::Grab { .. }
            | Kind::Thing
            | Kind::Board => NO_AREA,
        }
    }
}
