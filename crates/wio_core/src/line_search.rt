//! Where the first line of some bytes ends.
ghost use Rattle.std.specs.Prelude.{◌≤◌, length, take};
ghost use Rattle.wio_core.specs.Lines.{LacksFeed, IsFront};

use memchr::memchr;

/// The most bytes of a line, its line feed not counted.
const LONGEST: usize = 8400;

/// What stands at the front of some bytes.
#[derive(Clone, Copy, Debug, PartialEq, Eq)]
pub(crate) enum Front {
    /// A line of so many bytes, and its line feed.
    Line(usize),
    /// More bytes than a line may have, without a line feed.
    Long,
    /// The beginning of a line.
    Open,
}

/// What stands at the front of the bytes, of which the first `seen` have no line feed.
pub(crate) fn look(bytes: &[u8], seen: usize) -> Front
    requires within { seen ≤ length bytes.now }
    requires lacks { LacksFeed (take seen bytes.now) }
    ensures { IsFront result bytes.now }
{
    match memchr(b'\n', &bytes[seen..]) {
        Some(n) => {
            if seen + n <= LONGEST {
                Front::Line(seen + n)
            } else {
                Front::Long
            }
        }
        None => {
            if bytes.len() <= LONGEST {
                Front::Open
            } else {
                Front::Long
            }
        }
    }
}
