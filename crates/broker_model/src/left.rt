//! The stores that something is in, of peers that ended.
ghost use Rattle.std.specs.Prelude.{◌≡◌, ◌≤◌, ◌==◌, ℕ, ◌++◌, not, length, filter, min, take};
ghost use Rattle.std.specs.Prelude.{drop, IfSome, IfNone, vec_len, vec_capacity};
ghost use Rattle.out_store.specs.Queue.{bytes_of, tokens_of};
ghost use Rattle.broker_model.specs.Ends.{store_at, cells_in, rest_of, IsLast};

use out_store::Store;

/// What is stored for a peer that ended.
#[derive(Drop)]
pub(crate) struct Left {
    pub number: u32,
    pub store: Store,
}

// The place of what is stored for the peer, if something is.
fn place_of(left: &[Left], number: u32) -> Option<usize>
    ensures there { IfSome result (λ place. IsLast number place left.now) }
    ensures nowhere { IfNone result (store_at number left.now ≡ None) }
{
    let mut place = left.len();
    while place > 0 {
        place -= 1;
        if left[place].number == number {
            return Some(place);
        }
    }
    None
}

// What is stored for the peer is let go.
fn forget(left: &mut Vec<Left>, number: u32)
    ensures left { left.new.items ≡ filter (λ one. not (one.number == number)) left.old.items }
    ensures len { vec_len left.new ≤ vec_len left.old }
    ensures capacity { vec_capacity left.new ≡ vec_capacity left.old }
{
    left.retain(|one| one.number != number);
}

/// How many bytes are stored for the peer.
pub(crate) fn stored_in(left: &[Left], number: u32) -> usize
    ensures { result ≡ length (cells_in (store_at number left.now)) }
{
    match place_of(left, number) {
        Some(place) => left[place].store.len(),
        None => 0,
    }
}

/// Moves the first bytes that are stored for the peer into `buf`, with their tokens, as a store
/// does. Nothing stays once that was all.
pub(crate) fn take_from(
    left: &mut Vec<Left>,
    number: u32,
    buf: &mut [u8],
    tokens: &mut [u32],
) -> (usize, usize)
    requires piece { length buf.old ≤ 4096 }
    requires places { 256 ≤ length tokens.old }
    ensures count { result.0 ≡ min (length buf.old)
        (length (cells_in (store_at number left.old.items))) }
    ensures bytes { buf.new ≡ bytes_of (take result.0 (cells_in (store_at number left.old.items)))
        ++ drop result.0 buf.old }
    ensures token_count { result.1 ≡ length (tokens_of
        (take result.0 (cells_in (store_at number left.old.items)))) }
    ensures tokens { tokens.new ≡ tokens_of
        (take result.0 (cells_in (store_at number left.old.items))) ++ drop result.1 tokens.old }
    ensures rest { store_at number left.new.items
        ≡ rest_of result.0 (store_at number left.old.items) }
    ensures others { (other : ℕ) → (other ≡ number → ⊥) →
        store_at other left.new.items ≡ store_at other left.old.items }
    ensures len { vec_len left.new ≤ vec_len left.old }
    ensures capacity { vec_capacity left.new ≡ vec_capacity left.old }
{
    let Some(place) = place_of(left, number) else {
        return (0, 0);
    };
    let store = &mut left[place].store;
    let counts = store.take(buf, tokens);
    if store.is_empty() {
        forget(left, number);
    }
    counts
}
