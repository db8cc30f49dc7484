//! The bytes of a message that isn't whole yet.
ghost use Rattle.std.specs.Prelude.{◌≡◌, ◌≤◌, drop, vec_len};

// The first bytes go.
pub(crate) fn cut_front(held: &mut Vec<u8>, count: usize)
    requires { count ≤ vec_len held.old }
    ensures { held.new.items ≡ drop count held.old.items }
{
    held.rotate_left(count);
    held.truncate(held.len() - count);
}
