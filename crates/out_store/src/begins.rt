//! The ring of tokens.
ghost use Rattle.std.specs.Prelude.{◌≡◌, ◌+◌, ◌++◌, ◌≤◌, length, map, take, drop};
ghost use Rattle.circular_buffer.specs.Buffer.{buffer};
ghost use Rattle.out_store.specs.Ring.{offsets, placed, begun_count};

use circular_buffer::HeapCircularBuffer;

/// A token, and the place of the byte at which its message begins. Places count around 2^64.
#[derive(Clone, Copy)]
pub struct Begin {
    pub place: u64,
    pub token: u32,
}

/// Adds the tokens of a group whose first byte is at this place.
pub fn add_begins(ring: &mut HeapCircularBuffer<Begin>, start: u64, tokens: &[(usize, u32)])
    requires room { length ring.old.items + length tokens.now ≤ ring.old.capacity }
    ensures added { ring.new ≡ buffer (ring.old.items ++ placed start tokens.now)
        ring.old.capacity }
{
    for (at, token) in tokens {
        let place = start.wrapping_add(*at as u64);
        let _ = ring.push_back(Begin {
            place,
            token: *token,
        });
    }
}

/// Moves out the tokens whose messages begin within `n` bytes from the front on, and says how many.
pub fn take_begun(
    ring: &mut HeapCircularBuffer<Begin>,
    front: u64,
    n: usize,
    out: &mut [u32],
) -> usize
    requires places { begun_count n (offsets front ring.old.items) ≤ length out.old }
    ensures count { result ≡ begun_count n (offsets front ring.old.items) }
    ensures tokens { out.new ≡ map (λ begin. begin.token) (take result ring.old.items) ++ drop
        result out.old }
    ensures rest { ring.new ≡ buffer (drop result ring.old.items) ring.old.capacity }
{
    let mut count = 0;
    while let Some(&begin) = ring.front() {
        if begin.place.wrapping_sub(front) as usize >= n {
            break;
        }
        out[count] = begin.token;
        count += 1;
        let _ = ring.pop_front();
    }
    count
}
