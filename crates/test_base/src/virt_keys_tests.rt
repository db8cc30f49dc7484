//! Where the keys of boards go: each board by itself, beside another's, its own peer's grab and grabs that fell.
use crate::equal::equal_at;
use kbd_grab::{Label, Route};
use std::process::Abort;
use std::test::Fail;
use virt_keys::VKeys;

// A grab that stands, and its peer.
type Standing = Option<(Label, Label)>;

// A call for a board, with where its keys or modifiers go beside this grab, or what it has to answer.
#[derive(Clone, Copy)]
enum Step {
    // A key, and whether it is pressed.
    Key(Label, u32, bool, Standing, Route),
    // The keys 0 to 63 are pressed beside no grab.
    Press64(Label),
    Mods(Label, Standing, Route),
    Keymap(Label),
    HasKeymap(Label, bool),
    Drop(Label),
}

fn press(rt: &impl Abort, boards: &mut VKeys, step: (Label, u32, bool, Standing, Route)) {
    let (board, key, pressed, grab, want) = step;
    assert!(rt; boards.contains(board));
    equal_at(
        rt,
        &(board, key),
        boards.key(board, key, pressed, grab),
        want,
    );
}

fn take(rt: &impl Abort, boards: &mut VKeys, step: Step) {
    match step {
        Step::Key(board, key, pressed, grab, want) => {
            press(rt, boards, (board, key, pressed, grab, want));
        }
        Step::Press64(board) => {
            for key in 0..64 {
                press(rt, boards, (board, key, true, None, Route::Pass));
            }
        }
        Step::Mods(board, grab, want) => {
            assert!(rt; boards.contains(board));
            equal_at(rt, &board, boards.mods(board, grab), want);
        }
        Step::Keymap(board) => {
            assert!(rt; boards.contains(board));
            boards.keymap(board);
        }
        Step::HasKeymap(board, want) => equal_at(rt, &board, boards.has_keymap(board), want),
        Step::Drop(board) => {
            assert!(rt; boards.contains(board));
            boards.drop_board(board);
        }
    }
}

// Boards 4 and 5 are peer 1's, board 9 is peer 8's; grab 3 is peer 1's and grab 12 peer 8's.
const BOARDS: [(Label, Label); 3] = [(4, 1), (5, 1), (9, 8)];

const KEYS_PASS_BY_THEIR_OWN_GRAB: [Step; 17] = [
    // a method's own keys pass by its grab, another's go to it
    Step::Key(4, 30, true, Some((3, 1)), Route::Pass),
    Step::Key(9, 30, true, Some((3, 1)), Route::ToGrab(3)),
    // pressed again while no grab stands, and while another does
    Step::Key(9, 30, true, None, Route::Nowhere),
    Step::Key(9, 30, true, Some((12, 8)), Route::Nowhere),
    Step::Key(4, 30, true, Some((12, 8)), Route::Pass),
    Step::Key(9, 30, true, Some((3, 1)), Route::ToGrab(3)),
    // a first press under the other grab
    Step::Key(4, 31, true, Some((12, 8)), Route::ToGrab(12)),
    Step::Key(5, 31, true, None, Route::Pass),
    // releases go where the press went
    Step::Key(4, 30, false, Some((12, 8)), Route::Pass),
    Step::Key(9, 30, false, Some((12, 8)), Route::Nowhere),
    Step::Key(4, 31, false, Some((12, 8)), Route::ToGrab(12)),
    // and those of keys that are up to the shell
    Step::Key(9, 30, false, Some((3, 1)), Route::Pass),
    Step::Key(4, 31, false, Some((12, 8)), Route::Pass),
    Step::Key(9, 30, true, Some((12, 8)), Route::Pass),
    // modifiers too
    Step::Mods(4, Some((3, 1)), Route::Pass),
    Step::Mods(9, Some((3, 1)), Route::ToGrab(3)),
    Step::Mods(9, None, Route::Pass),
];

const A_BOARD_HOLDS_64_KEYS: [Step; 6] = [
    Step::Press64(4),
    Step::Key(4, 64, true, None, Route::TooMany),
    // another board's keys are counted by themselves
    Step::Key(5, 64, true, None, Route::Pass),
    Step::Key(4, 63, true, None, Route::Pass),
    Step::Key(4, 63, false, None, Route::Pass),
    Step::Key(4, 64, true, Some((12, 8)), Route::ToGrab(12)),
];

const A_BOARD_THAT_ENDED_IS_FORGOTTEN: [Step; 6] = [
    Step::Keymap(4),
    Step::HasKeymap(4, true),
    Step::HasKeymap(5, false),
    Step::Drop(4),
    Step::HasKeymap(4, false),
    Step::Key(5, 30, true, None, Route::Pass),
];

const LISTS: [&[Step]; 3] = [
    &KEYS_PASS_BY_THEIR_OWN_GRAB,
    &A_BOARD_HOLDS_64_KEYS,
    &A_BOARD_THAT_ENDED_IS_FORGOTTEN,
];

#[test]
fn each_list_of_steps_is_answered(rt: HostRuntime) -> Result<(), Fail> {
    for steps in &LISTS {
        let mut boards = VKeys::new(rt.alloc())?;
        for (board, peer) in &BOARDS {
            assert!(rt; !boards.contains(*board));
            boards.make(*board, *peer)?;
        }
        for step in *steps {
            take(&rt, &mut boards, *step);
        }
    }
    Ok(())
}
