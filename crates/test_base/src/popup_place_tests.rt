//! Worked rows of popups beside a cursor.
use crate::equal::equal_at;
use popup_place::{Placed, Rect, Size, place};

/// The size of the screen, where the surface stands, the cursor on it (place and size), the size of the popup; and then
/// where the popup is placed, and the cursor as it sees it.
type Row = ([i32; 2], [i32; 2], [i32; 4], [i32; 2], [i64; 2], [i32; 4]);

const LEAST: i32 = i32::MIN;

const MOST: i32 = i32::MAX;

#[rattlefmt::skip]
const ROWS: [Row; 9] = [
    // above, since under the cursor the screen ends; and under
    ([1000, 800], [100, 200], [850, 560, 2, 20], [200, 100], [800, 660], [150, 100, 2, 20]),
    ([1000, 800], [100, 200], [10, 20, 2, 20], [200, 100], [110, 240], [0, -20, 2, 20]),
    // under, and just so: the popup ends where the screen does; above, and just so
    ([1000, 800], [0, 0], [800, 600, 2, 100], [200, 100], [800, 700], [0, -100, 2, 100]),
    ([1000, 800], [0, 0], [0, 450, 2, 20], [10, 450], [0, 0], [0, 450, 2, 20]),
    // wider than the screen
    ([1000, 800], [100, 0], [0, 0, 1, 1], [1001, 5], [0, 1], [100, -1, 1, 1]),
    // under the cursor where neither place fits
    ([100, 100], [0, 0], [10, 10, 1, 10], [200, 90], [0, 20], [10, -10, 1, 10]),
    // at the ends of the numbers
    ([1000, 800], [MOST, MOST], [MOST, MOST, 1, 1], [10, 10], [990, 4294967295], [2147483647, -1, 1, 1]),
    ([1000, 800], [LEAST, LEAST], [LEAST, LEAST, 0, 0], [10, 10], [0, -4294967296], [-2147483648, 0, 0, 0]),
    ([MOST, MOST], [0, 0], [0, LEAST, 0, 0], [MOST, MOST], [0, -2147483648], [0, 0, 0, 0]),
];

fn rect(by: [i32; 4]) -> Rect {
    let [x, y, width, height] = by;
    Rect {
        x,
        y,
        width,
        height,
    }
}

fn size(by: [i32; 2]) -> Size {
    let [width, height] = by;
    Size { width, height }
}

#[test]
fn popups_are_placed(rt: HostRuntime) {
    for (screen, [left, top], cursor, popup, [x, y], seen) in ROWS {
        let want = Placed {
            x,
            y,
            seen: rect(seen),
        };
        let got = place(size(screen), (left, top), rect(cursor), size(popup));
        equal_at(&rt, &cursor, got, want);
    }
}
