//! What is listed beside the live objects: the fields of each peer, and the popups.
ghost use Rattle.std.specs.Prelude.{◌≡◌, ◌<◌, ◌≤◌, ◌+◌, ◌++◌, ◌==◌, ℕ, filter, vec_len};
ghost use Rattle.std.specs.Prelude.{vec_capacity};
ghost use Rattle.std.specs.List.{list_any};
ghost use Rattle.relay_objects.specs.Listed.{PeersRise, LabelsRise, IsPart, of_peer, is_other};
ghost use Rattle.relay_objects.specs.Listed.{field_entry, popup_of, without_field, without_popup};

use crate::object::{Kind, Object};
use relay_model::Label;

/// A live field, with its peer.
#[derive(Clone, Copy, Drop)]
pub struct LiveField {
    /// The peer that it belongs to.
    pub peer: Label,
    /// Its own label.
    pub label: Label,
}

/// A live popup, with what it was made of.
#[derive(Clone, Copy, Drop)]
pub struct LivePopup {
    /// The peer that it belongs to.
    pub peer: Label,
    /// Its own label.
    pub label: Label,
    /// The method that made it.
    pub method: Label,
    /// The surface that it was made on.
    pub surface: Label,
}

/// Where the fields of the peer begin, and where they end.
fn part_of(fields: &[LiveField], peer: Label) -> (usize, usize)
    requires { PeersRise fields.now }
    ensures { IsPart fields.now peer result.0 result.1 }
{
    let start = fields.partition_point(|each| each.peer < peer);
    let stop = fields.partition_point(|each| each.peer <= peer);
    (start, stop)
}

/// The fields of the peer.
pub fn of_peer(fields: &[LiveField], peer: Label) -> &[LiveField]
    requires { PeersRise fields.now }
    ensures { result.now ≡ filter (of_peer peer) fields.now }
{
    let (start, stop) = part_of(fields, peer);
    &fields[start..stop]
}

/// Lists the object behind its peer's fields, if it is one.
pub fn list_field(fields: &mut Vec<LiveField>, object: &Object)
    requires room { vec_len fields.old < vec_capacity fields.old }
    requires rise { PeersRise fields.old.items }
    ensures rise { PeersRise fields.new.items }
    ensures parts { (p : ℕ) → filter (of_peer p) fields.new.items
        ≡ filter (of_peer p) fields.old.items ++ field_entry p object.now }
    ensures len { vec_len fields.new ≤ vec_len fields.old + 1 }
    ensures capacity { vec_capacity fields.old ≤ vec_capacity fields.new }
{
    if object.is_field() {
        let peer = object.peer;
        let label = object.label;
        let (_, stop) = part_of(fields, peer);
        let _ = fields.insert(stop, LiveField { peer, label });
    }
}

// Takes the field out of the list.
fn remove_field(fields: &mut Vec<LiveField>, field: LiveField)
    requires rise { PeersRise fields.old.items }
    requires part { LabelsRise (filter (of_peer field.peer) fields.old.items) }
    ensures items { fields.new.items ≡ filter (is_other field) fields.old.items }
    ensures len { vec_len fields.new ≤ vec_len fields.old }
    ensures capacity { vec_capacity fields.old ≤ vec_capacity fields.new }
{
    let (start, stop) = part_of(fields, field.peer);
    if let Ok(at) = fields[start..stop].binary_search_by_key(&field.label, |each| each.label) {
        let _ = fields.remove(start + at);
    }
}

fn unlist_field(fields: &mut Vec<LiveField>, object: &Object)
    requires rise { PeersRise fields.old.items }
    requires part { LabelsRise (filter (of_peer object.now.peer) fields.old.items) }
    ensures items { fields.new.items ≡ without_field object.now fields.old.items }
    ensures len { vec_len fields.new ≤ vec_len fields.old }
    ensures capacity { vec_capacity fields.old ≤ vec_capacity fields.new }
{
    if object.is_field() {
        remove_field(
            fields,
            LiveField {
                peer: object.peer,
                label: object.label,
            },
        );
    }
}

/// A popup of the list has the surface.
pub fn has_surface(popups: &[LivePopup], surface: Label) -> bool
    ensures { result ≡ list_any (λ w. w.surface == surface) popups.now }
{
    popups.iter().any(|popup| popup.surface == surface)
}

/// Lists the object behind the popups, if it is one.
pub fn list_popup(popups: &mut Vec<LivePopup>, object: &Object)
    requires { vec_len popups.old < vec_capacity popups.old }
    ensures items { popups.new.items ≡ popups.old.items ++ popup_of object.now }
    ensures len { vec_len popups.new ≤ vec_len popups.old + 1 }
    ensures capacity { vec_capacity popups.old ≤ vec_capacity popups.new }
{
    if let Kind::Popup { method, surface } = &object.kind {
        popups.push_reserved(LivePopup {
            peer: object.peer,
            label: object.label,
            method: *method,
            surface: *surface,
        });
    }
}

fn unlist_popup(popups: &mut Vec<LivePopup>, object: &Object)
    ensures items { popups.new.items ≡ without_popup object.now popups.old.items }
    ensures len { vec_len popups.new ≤ vec_len popups.old }
    ensures capacity { vec_capacity popups.old ≤ vec_capacity popups.new }
{
    if object.is_popup() {
        let label = object.label;
        popups.retain(|each| each.label != label);
    }
}

/// Lists the object no longer, which lives no longer.
pub fn unlist(fields: &mut Vec<LiveField>, popups: &mut Vec<LivePopup>, object: Object)
    requires rise { PeersRise fields.old.items }
    requires part { LabelsRise (filter (of_peer object.peer) fields.old.items) }
    ensures fields { fields.new.items ≡ without_field object fields.old.items }
    ensures fields_len { vec_len fields.new ≤ vec_len fields.old }
    ensures fields_capacity { vec_capacity fields.old ≤ vec_capacity fields.new }
    ensures popups { popups.new.items ≡ without_popup object popups.old.items }
    ensures popups_len { vec_len popups.new ≤ vec_len popups.old }
    ensures popups_capacity { vec_capacity popups.old ≤ vec_capacity popups.new }
{
    unlist_field(fields, &object);
    unlist_popup(popups, &object);
}
