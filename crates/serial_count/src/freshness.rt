//! Whether a serial is fresh.
ghost use Rattle.std.specs.Prelude.{◌≡◌, ℕ, ◌%◌, ◌^◌, ◌≤◌, ◌↔◌, min, IsTrue};
ghost use Rattle.serial_count.specs.Serial.{IsFresh, is_recent};

use crate::counting::{Count32, Since};

/// Whether `serial`, any u32, names a done of the present activation: `count` dones were told so far, the last `since`
/// of them in the activation. False where no activation is present. A commit
/// (`zwp_input_method_v2.commit`) whose serial isn't fresh is ignored.
pub fn fresh(count: Count32, since: Since, serial: u32) -> bool
    ensures search { (k j : ℕ) → j ≤ k → count ≡ k % 2 ^ 32 → since ≡ min j (2 ^ 32) →
        (IsTrue result ↔ IsFresh k j serial) }
    // The same by numbers, for callers whose counts are known to their own definitions only.
    ensures distance { result ≡ is_recent count since serial }
{
    let dones_ago = count.get().wrapping_sub(serial);
    (dones_ago as u64) < since.get()
}
