//! Where a live object stands in the slab: a list by rising label, searched by halves.
ghost use Rattle.std.specs.Prelude.{◌≡◌, IfSome, IfNone};
ghost use Rattle.relay_objects.specs.Places.{LabelsRise, IsPlaceOf, HasNoPlace, key_in};

use relay_model::Label;

/// The key of an object in the slab, with what its place is found by.
#[derive(Clone, Copy, Drop)]
pub struct Place {
    /// The object's label.
    pub label: Label,
    /// The peer that it belongs to.
    pub peer: Label,
    /// Its key in the slab.
    pub key: usize,
}

// The place at the label's distance from the first one, where it is the label's: so it is as long as
// the objects are alive that were made from the first one on.
fn at_distance(places: &[Place], label: Label) -> Option<usize>
    ensures { IfSome result (IsPlaceOf places.now label) }
{
    let first = places.first()?;
    let at = label.checked_sub(first.label)? as usize;
    let place = places.get(at)?;
    if place.label == label { Some(at) } else { None }
}

/// Which place is the label's.
pub fn place_of(places: &[Place], label: Label) -> Option<usize>
    requires { LabelsRise places.now }
    ensures found { IfSome result (IsPlaceOf places.now label) }
    ensures absent { IfNone result (HasNoPlace places.now label) }
{
    if let Some(at) = at_distance(places, label) {
        return Some(at);
    }
    match places.binary_search_by_key(&label, |place| place.label) {
        Ok(at) => Some(at),
        Err(_) => None,
    }
}

/// The key of the object with the label.
pub fn key_of(places: &[Place], label: Label) -> Option<usize>
    requires { LabelsRise places.now }
    ensures { result ≡ key_in places.now label }
{
    match place_of(places, label) {
        Some(at) => Some(places[at].key),
        None => None,
    }
}
