//! How a script falls into lines.
ghost use Rattle.std.specs.Prelude.{◌≡◌, ◌<◌, ◌==◌, ◌∷◌, [], length, position, IfSome, MatchOption};
ghost use Rattle.trial_script.specs.Lines.{lines_of};

// Where the first line feed stands.
fn find_feed(bytes: &[u8]) -> Option<usize>
    ensures { result ≡ position (λ b. b == 10) bytes.now }
{
    bytes.iter().position(|b| *b == b'\n')
}

// The first line, and the bytes after it.
pub(crate) fn take_line(bytes: &[u8]) -> Option<(&[u8], &[u8])>
    ensures line { MatchOption result (lines_of bytes.now ≡ [])
        (λ p. lines_of bytes.now ≡ p.0.now ∷ lines_of p.1.now) }
    ensures fewer { IfSome result (λ p. length p.1.now < length bytes.now) }
{
    if bytes.is_empty() {
        return None;
    }
    match find_feed(bytes) {
        Some(at) => Some((&bytes[..at], &bytes[at + 1..])),
        None => Some((bytes, &[])),
    }
}
