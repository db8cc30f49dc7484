//! The popups that are shown, and where.
ghost use Rattle.std.specs.Prelude.{◌≡◌, ◌<◌, ◌^◌, [], ◌∷◌, length};
ghost use Rattle.std.specs.List.{flat_map};
ghost use Rattle.relay_model.specs.declared.said.Said.TheVariants as said;
ghost use Rattle.relay_model.specs.Told.{to};
ghost use Rattle.relay_model.specs.Popups.{area, screen, rect_of, cursor, corner, size_of};
ghost use Rattle.relay_model.specs.Popups.{corner_of, origin, place, ready_surface, place_told};
ghost use Rattle.relay_model.specs.Popups.{told_where, popup_told, each_popup};
ghost use Rattle.relay_plain.specs.Telling.{Tells};

use crate::current::current;
use crate::focus::{focus, where_alive};
use crate::hold::holder;
use crate::objects::{is_same, method_of, popups, surface_of};
use crate::seat::serving;
use crate::telling::{SHELL, tell};
use relay_model::{Act, Label, Placed, Rect, Said, Size, Told};
use std::alloc::Global;
use wio_core::NoMemory;

// The place and the size of a surface on the screen: the last that the shell gave, else 0.
fn area(log: &[Act], surface: Label) -> Rect
    ensures { result ≡ area log.now surface }
{
    match log {
        [] => Rect {
            x: 0,
            y: 0,
            width: 0,
            height: 0,
        },
        [act, older @ ..] => match act {
            Act::Area {
                surface: named,
                rect,
            } if *named == surface => *rect,
            _ => area(older, surface),
        },
    }
}

// The size of the screen: the last that the shell gave, else 0 by 0.
fn screen(log: &[Act]) -> Size
    ensures { result ≡ screen log.now }
{
    match log {
        [] => Size {
            width: 0,
            height: 0,
        },
        [act, older @ ..] => match act {
            Act::Screen { size } => *size,
            _ => screen(older),
        },
    }
}

// The cursor rectangle of the field that holds the seat, where it is set.
fn cursor(log: &[Act]) -> Option<Rect>
    ensures { result ≡ cursor log.now }
{
    match holder(log) {
        Some(field) => current(log, field).rect,
        None => None,
    }
}

fn size_of(rect: Rect) -> Size
    ensures { result ≡ size_of rect }
{
    Size {
        width: rect.width,
        height: rect.height,
    }
}

// The corner of the focused surface on the screen.
fn origin(log: &[Act]) -> (i32, i32)
    ensures { result ≡ origin log.now }
{
    match focus(log) {
        Some(surface) => {
            let area = area(log, surface);
            (area.x, area.y)
        }
        None => (0, 0),
    }
}

// Where a popup on the surface stands beside the cursor rectangle.
fn place(log: &[Act], surface: Label, rect: Rect) -> Placed
    ensures { result ≡ place log.now surface rect }
{
    relay_model::place(screen(log), origin(log), rect, size_of(area(log, surface)))
}

// The surface of the popup, where it is alive, the popup too, and the popup's method serves.
fn ready_surface(log: &[Act], popup: Label) -> Option<Label>
    requires { length log.now < 2 ^ 32 }
    ensures { result ≡ ready_surface log.now popup }
{
    if is_same(method_of(log, popup), serving(log)) {
        where_alive(log, surface_of(log, popup))
    } else {
        None
    }
}

// The popup is told where the cursor rectangle is.
fn tell_seen(popup: Label, seen: Rect, told: &mut Vec<Told>) -> Result<(), NoMemory>
    ensures { Tells result told.old told.new
        (to popup (said.PopupRect seen.x seen.y seen.width seen.height) ∷ []) }
{
    let event = Said::PopupRect {
        x: seen.x,
        y: seen.y,
        width: seen.width,
        height: seen.height,
    };
    tell(popup, event, told)
}

// The popup is told where the cursor rectangle is, and the shell where the popup stands.
fn tell_place(popup: Label, placed: Placed, told: &mut Vec<Told>) -> Result<(), NoMemory>
    ensures { Tells result told.old told.new (place_told popup placed) }
{
    tell_seen(popup, placed.seen, told)?;
    let event = Said::Placed {
        popup,
        x: placed.x,
        y: placed.y,
    };
    tell(SHELL, event, told)
}

// Tells a popup where it is shown.
pub fn tell_popup(log: &[Act], popup: Label, told: &mut Vec<Told>) -> Result<(), NoMemory>
    requires { length log.now < 2 ^ 32 }
    ensures { Tells result told.old told.new (popup_told log.now popup) }
{
    match (ready_surface(log, popup), cursor(log)) {
        (Some(surface), Some(rect)) => tell_place(popup, place(log, surface, rect), told),
        _ => Ok(()),
    }
}

fn tell_popups(log: &[Act], popups: &[Label], told: &mut Vec<Told>) -> Result<(), NoMemory>
    requires { length log.now < 2 ^ 32 }
    ensures { Tells result told.old told.new (flat_map (popup_told log.now) popups.now) }
{
    match popups {
        [] => Ok(()),
        [popup, rest @ ..] => {
            tell_popup(log, *popup, told)?;
            tell_popups(log, rest, told)
        }
    }
}

// Tells each popup, by rising label.
pub fn tell_each_popup(alloc: Global, log: &[Act], told: &mut Vec<Told>) -> Result<(), NoMemory>
    requires { length log.now < 2 ^ 32 }
    ensures { Tells result told.old told.new (each_popup log.now) }
{
    let popups = popups(alloc, log)?;
    tell_popups(log, &popups, told)
}
