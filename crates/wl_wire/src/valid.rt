//! Whether bytes are a text.
ghost use Rattle.std.specs.Prelude.{◌≡◌, IfSome, IfNone, IsTrue, false};
ghost use Rattle.wl_wire.specs.Texts.{has_no_zero, is_plain, is_text};

// Up to so many bytes a text is tried as letters of ASCII first.
const FEW: usize = 16;

fn all_nonzero(bytes: &[u8]) -> bool
    ensures { result ≡ has_no_zero bytes.now }
{
    bytes.iter().all(|b| *b != 0)
}

// Whether the bytes are letters of ASCII, none of them zero.
fn is_plain(bytes: &[u8]) -> bool
    ensures { result ≡ is_plain bytes.now }
{
    bytes.iter().all(|b| *b != 0 && *b < 128)
}

/// The bytes as a text, exactly where they are UTF-8 without a zero byte.
pub fn text_of(bytes: &[u8]) -> Option<&str>
    ensures some { IfSome result (λ t. (t.now ≡ bytes.now) × IsTrue (is_text bytes.now)) }
    ensures none { IfNone result (is_text bytes.now ≡ false) }
{
    // Most texts are a few letters, for which one short pass is enough.
    if bytes.len() <= FEW && is_plain(bytes) {
        return Some(unsafe { std::str::from_utf8_unchecked(bytes) });
    }
    any_text_of(bytes)
}

#[inline(never)]
fn any_text_of(bytes: &[u8]) -> Option<&str>
    ensures some { IfSome result (λ t. (t.now ≡ bytes.now) × IsTrue (is_text bytes.now)) }
    ensures none { IfNone result (is_text bytes.now ≡ false) }
{
    if !all_nonzero(bytes) {
        return None;
    }
    match simdutf8::basic::from_utf8(bytes) {
        Ok(text) => Some(text),
        Err(_) => None,
    }
}
