//! The rule that places a popup.
ghost use Rattle.std.specs.Prelude.{◌≡◌, ◌^◌, pos, ◌+ℤ◌, ◌≤ℤ◌, ◌⊎◌, IsTrue};
ghost use Rattle.std.specs.Int.{w32, saturate_signed};
ghost use Rattle.popup_place.specs.Popup.{place_of, x_of, y_of, fits, above, under};

use crate::geometry::{Rect, Size};

/// Where a popup's upper left corner stands on the screen, and what the popup is told about the cursor.
#[derive(Clone, Copy, Debug, PartialEq, Eq)]
pub struct Placed {
    /// The popup's left edge on the screen, in pixels; never negative.
    pub x: i64,
    /// The popup's top edge on the screen, in pixels; off the screen only where the popup fits neither under nor above
    /// the cursor rectangle.
    pub y: i64,
    /// The cursor rectangle from the popup's own upper left corner: what
    /// `zwp_input_popup_surface_v2.text_input_rectangle` tells. Its corner is cut to the range of i32.
    pub seen: Rect,
}

/// Places a popup of `size` beside the cursor rectangle `rect` of the surface whose corner is at `origin`, on a screen
/// of size `screen`, all in pixels: under the rectangle where that fits, else above it where that fits, else under it;
/// at the rectangle's left edge, or as far left of it as the screen's right edge asks, but never left of the screen.
/// Holds for every i32: the sums are made in i64.
pub fn place(screen: Size, origin: (i32, i32), rect: Rect, size: Size) -> Placed
    ensures rule { result ≡ place_of screen origin rect size }

    // What the rule is for.
    ensures inside_sideways { size.width ≤ℤ screen.width →
        (pos 0 ≤ℤ result.x) × (result.x +ℤ size.width) ≤ℤ screen.width }
    ensures inside_in_height { IsTrue (fits screen size (under origin rect)) ⊎
        IsTrue (fits screen size (above origin rect size)) →
        (pos 0 ≤ℤ result.y) × (result.y +ℤ size.height) ≤ℤ screen.height }
{
    let left = origin.0 as i64 + rect.x as i64;
    let top = origin.1 as i64 + rect.y as i64;
    let x = left_edge(screen, size, left);
    let y = upper_edge(
        screen,
        size,
        top + rect.height as i64,
        top - size.height as i64,
    );
    let seen = Rect {
        x: cut(left - x),
        y: cut(top - y),
        width: rect.width,
        height: rect.height,
    };
    Placed { x, y, seen }
}

// The popup's left edge, with the cursor rectangle's left edge at `left`.
fn left_edge(screen: Size, size: Size, left: i64) -> i64
    ensures rule { result ≡ x_of screen size left }
    ensures inside { size.width ≤ℤ screen.width →
        (pos 0 ≤ℤ result) × (result +ℤ size.width) ≤ℤ screen.width }
    ensures from_zero { pos 0 ≤ℤ result }
    ensures at_most { result ≤ℤ pos (2 ^ 32) }
{
    left.min(screen.width as i64 - size.width as i64).max(0)
}

// The popup's top edge, of the two places that there are.
fn upper_edge(screen: Size, size: Size, under: i64, above: i64) -> i64
    ensures rule { result ≡ y_of screen size under above }
    ensures inside { IsTrue (fits screen size under) ⊎ IsTrue (fits screen size above) →
        (pos 0 ≤ℤ result) × (result +ℤ size.height) ≤ℤ screen.height }
    ensures one_of_both { (result ≡ under) ⊎ (result ≡ above) }
{
    if fits_at(screen, size, under) {
        under
    } else if fits_at(screen, size, above) {
        above
    } else {
        under
    }
}

fn fits_at(screen: Size, size: Size, y: i64) -> bool
    ensures { result ≡ fits screen size y }
{
    0 <= y && y <= screen.height as i64 - size.height as i64
}

// The nearest i32.
fn cut(n: i64) -> i32
    ensures { result ≡ saturate_signed w32 n }
{
    n.clamp(i32::MIN as i64, i32::MAX as i64) as i32
}
