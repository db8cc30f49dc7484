//! Where links come in.

/// A door. Links of applications, of input methods and of shells come through doors of their own.
#[derive(Clone, Copy, Debug, PartialEq, Eq)]
pub enum Door {
    /// Applications, which have text fields.
    App,
    /// Input methods.
    Method,
    /// Shells, which give the seat's keys and focus.
    Shell,
}
