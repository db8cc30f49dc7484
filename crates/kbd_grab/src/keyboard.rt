//! What a keyboard tells, and where a key goes.

/// The number that names a grab: that of the act that made it.
pub type Label = u32;

/// A keyboard's keymap, as `zwp_input_method_keyboard_grab_v2.keymap` tells it.
#[derive(Clone, Copy, Debug, PartialEq, Eq)]
pub struct Keymap {
    /// The format, of `wl_keyboard.keymap_format`.
    pub format: u32,
    /// What stands for the keymap's file descriptor.
    pub token: u32,
    /// Bytes of the keymap.
    pub size: u32,
}

/// How keys repeat, as `zwp_input_method_keyboard_grab_v2.repeat_info` tells it. Any i32.
#[derive(Clone, Copy, Debug, PartialEq, Eq)]
pub struct Repeat {
    /// Keys a second.
    pub rate: i32,
    /// Milliseconds before the first repeat.
    pub delay: i32,
}

/// The modifiers, as `zwp_input_method_keyboard_grab_v2.modifiers` tells them: three masks and the layout.
#[derive(Clone, Copy, Debug, PartialEq, Eq)]
pub struct Mods {
    /// The mask of the modifiers that are held down.
    pub depressed: u32,
    /// The mask of those that count for the next key.
    pub latched: u32,
    /// The mask of those that are locked on.
    pub locked: u32,
    /// The layout that is in force.
    pub group: u32,
}

/// Where a press or a release goes.
#[derive(Clone, Copy, Debug, PartialEq, Eq)]
pub enum Route {
    /// To the grab with this label, which stands: told as `zwp_input_method_keyboard_grab_v2.key`.
    ToGrab(Label),
    /// Past the grabs, to the shell.
    Pass,
    /// Nowhere: the grab that the key's first press went to doesn't stand any more.
    Nowhere,
    /// The press is refused: 64 keys are down, and this is another.
    TooMany,
}
