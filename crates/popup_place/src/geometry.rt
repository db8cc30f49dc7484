//! Rectangles and sizes.

/// A rectangle in surface-local or screen coordinates: the corner with the least coordinates, and how far it reaches
/// to the right and down. `zwp_text_input_v3.set_cursor_rectangle` and
/// `zwp_input_popup_surface_v2.text_input_rectangle` carry these four numbers in this order.
#[derive(Clone, Copy, Debug, PartialEq, Eq)]
pub struct Rect {
    /// The left edge, any i32.
    pub x: i32,
    /// The top edge, any i32; larger is further down.
    pub y: i32,
    /// Pixels to the right of `x`.
    pub width: i32,
    /// Pixels below `y`.
    pub height: i32,
}

/// How wide and how high a screen or a popup is, in pixels.
#[derive(Clone, Copy, Debug, PartialEq, Eq)]
pub struct Size {
    /// How wide, any i32.
    pub width: i32,
    /// How high, any i32.
    pub height: i32,
}
