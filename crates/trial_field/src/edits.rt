//! What a field's own user does.

/// One edit that the field's own user makes. `&str` is UTF-8, so whole characters go in.
#[derive(Clone, Copy, Debug)]
pub enum Edit<'a> {
    /// Puts the text, which has no zero byte, at the cursor, and the cursor behind it.
    Insert(&'a str),
    /// Moves the cursor over the character before it.
    Left,
    /// Moves the cursor over the character behind it.
    Right,
    /// Deletes the character before the cursor.
    Rub,
}
