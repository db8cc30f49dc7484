//! The interfaces of this profile.
ghost use Rattle.std.specs.Prelude.{◌≡◌};
ghost use Rattle.wl_proto.specs.Names.{name_of};

/// An interface that an object can have. Each is spoken in version 1 of it, whatever its name's ending.
#[derive(Clone, Copy, Debug, PartialEq, Eq)]
pub enum Interface {
    /// `wl_display`, the object 1 of each peer.
    Display,
    /// `wl_registry`, which tells the globals and binds them.
    Registry,
    /// `wl_callback`, the answer to a sync.
    Callback,
    /// `wl_compositor`, which makes surfaces.
    Compositor,
    /// `wl_surface`.
    Surface,
    /// `wl_seat`.
    Seat,
    /// `zwp_text_input_manager_v3`, which makes text inputs.
    TextInputManager,
    /// `zwp_text_input_v3`, an application's text field.
    TextInput,
    /// `zwp_input_method_manager_v2`, which makes input methods.
    InputMethodManager,
    /// `zwp_input_method_v2`.
    InputMethod,
    /// `zwp_input_popup_surface_v2`, a surface of an input method that is shown at the cursor.
    InputPopupSurface,
    /// `zwp_input_method_keyboard_grab_v2`.
    KeyboardGrab,
    /// `zwp_virtual_keyboard_manager_v1`, which makes virtual keyboards.
    VirtualKeyboardManager,
    /// `zwp_virtual_keyboard_v1`, a keyboard whose keys an input method presses.
    VirtualKeyboard,
}

impl Interface {
    /// The name that the protocol gives the interface, as `wl_registry.global` tells it.
    pub fn name(self) -> &'static str
        ensures name { result.now ≡ name_of self }
    {
        match self {
            Interface::Display => "wl_display",
            Interface::Registry => "wl_registry",
            Interface::Callback => "wl_callback",
            Interface::Compositor => "wl_compositor",
            Interface::Surface => "wl_surface",
            Interface::Seat => "wl_seat",
            Interface::TextInputManager => "zwp_text_input_manager_v3",
            Interface::TextInput => "zwp_text_input_v3",
            Interface::InputMethodManager => "zwp_input_method_manager_v2",
            Interface::InputMethod => "zwp_input_method_v2",
            Interface::InputPopupSurface => "zwp_input_popup_surface_v2",
            Interface::KeyboardGrab => "zwp_input_method_keyboard_grab_v2",
            Interface::VirtualKeyboardManager => "zwp_virtual_keyboard_manager_v1",
            Interface::VirtualKeyboard => "zwp_virtual_keyboard_v1",
        }
    }
}
