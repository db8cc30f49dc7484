//! The edits that an input method commits at once.

/// The longest committed string, in bytes: with its header it fills one message of 4,096 bytes.
pub const MAX_STRING: usize = 4_083;

/// The longest preedit text, in bytes: with its header and its two cursors it fills one message of 4,096 bytes.
pub const MAX_PREEDIT: usize = 4_075;

/// One batch of an input method's edits, as `zwp_input_method_v2.commit` makes it and `zwp_text_input_v3.done` ends it.
#[derive(Clone, Copy, Debug)]
pub struct BatchView<'a> {
    /// Bytes to delete before the cursor (`delete_surrounding_text`).
    pub before: u32,
    /// Bytes to delete behind the cursor (`delete_surrounding_text`).
    pub after: u32,
    /// The text to insert, at most [`MAX_STRING`] bytes with no zero byte (`commit_string`).
    pub string: &'a str,
    /// The text to show at the cursor beside the text, at most [`MAX_PREEDIT`] bytes with no zero
    /// byte (`set_preedit_string`).
    pub preedit: &'a str,
    /// Where the preedit's cursor begins, a byte offset in the preedit; any number, since it is relayed unchanged.
    pub begin: i32,
    /// Where the preedit's cursor ends, likewise.
    pub end: i32,
}
