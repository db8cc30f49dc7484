//! A field's states over its requests, and what it takes.
use crate::equal::{equal, equal_at};
use field_state::{Field, Room, SURROUNDING_LIMIT, Taken};
use popup_place::Rect;
use std::alloc::Global;
use std::process::Abort;
use std::test::Fail;
use wio_core::NoMemory;
use wl_wire::Text;

// A call with what it has to answer, or what a reader has to give.
#[derive(Clone, Copy)]
enum Step {
    Enter,
    Leave,
    Enable,
    Disable,
    // A text, its cursor and its anchor, whether it has an effect, and whether the room for one is left.
    Surround(&'static str, i32, i32, bool, bool),
    Cause(u32),
    Content(u32, u32),
    Rectangle(Rect, bool),
    Commit(Taken),
    Displace,
    Shows(Option<(&'static str, i32, i32)>, u32, (u32, u32), Option<Rect>),
    Count(u32),
}

const RECT: Rect = Rect {
    x: 1,
    y: -2,
    width: 3,
    height: 0,
};

const NARROW: Rect = Rect {
    x: 1,
    y: -2,
    width: -1,
    height: 0,
};

const LOW: Rect = Rect {
    x: 1,
    y: -2,
    width: 3,
    height: -1,
};

// Whether the text has an effect, where it has no zero byte, is short enough to be told, and there
// is memory for it.
fn surround(
    field: &mut Field,
    alloc: Global,
    text: &str,
    (cursor, anchor): (i32, i32),
    room: &mut Option<Room>,
) -> Result<Option<bool>, NoMemory> {
    let Ok(text) = Text::from_bytes(Vec::from_slice(alloc, text.as_bytes())?) else {
        return Ok(None);
    };
    if text.len() > SURROUNDING_LIMIT || room.is_none() {
        return Ok(None);
    }
    Ok(Some(field.set_surrounding(&text, cursor, anchor, room)))
}

fn take(
    rt: &impl Abort,
    alloc: Global,
    field: &mut Field,
    room: &mut Option<Room>,
    step: Step,
) -> Result<(), NoMemory> {
    match step {
        Step::Enter => field.enter(),
        Step::Leave => field.leave(),
        Step::Enable => field.enable(),
        Step::Disable => field.disable(),
        Step::Surround(text, cursor, anchor, has_effect, is_left) => {
            let answer = surround(field, alloc, text, (cursor, anchor), room)?;
            equal_at(
                rt,
                &text,
                (answer, room.is_some()),
                (Some(has_effect), is_left),
            );
        }
        Step::Cause(cause) => field.set_cause(cause),
        Step::Content(hint, purpose) => field.set_content(hint, purpose),
        Step::Rectangle(rect, has_effect) => equal(rt, field.set_rect(rect), has_effect),
        Step::Commit(taken) => equal(rt, field.commit(), taken),
        Step::Displace => field.displace(),
        Step::Shows(surrounding, cause, content, rect) => {
            equal(rt, field.surrounding(), surrounding);
            equal(rt, field.cause(), cause);
            equal(rt, field.content(), content);
            equal(rt, field.rect(), rect);
        }
        Step::Count(count) => equal(rt, field.count(), count),
    }
    Ok(())
}

const A_COMMIT_SHOWS_WHAT_WAS_SET_AND_THE_NEXT_ONE_NO_CAUSE: [Step; 11] = [
    Step::Enter,
    Step::Enable,
    Step::Surround("ab", 1, 1, true, false),
    Step::Cause(1),
    Step::Content(2, 3),
    Step::Rectangle(RECT, true),
    Step::Shows(None, 0, (0, 0), None),
    Step::Commit(Taken::Begun),
    Step::Shows(Some(("ab", 1, 1)), 1, (2, 3), Some(RECT)),
    Step::Commit(Taken::Updated),
    Step::Shows(Some(("ab", 1, 1)), 0, (2, 3), Some(RECT)),
];

const AN_ENABLE_FORGETS_WHAT_WAS_SET_BEFORE_IT: [Step; 5] = [
    Step::Enter,
    Step::Surround("ab", 1, 1, true, false),
    Step::Enable,
    Step::Commit(Taken::Begun),
    Step::Shows(None, 0, (0, 0), None),
];

const REQUESTS_WITHOUT_EFFECT_ANSWER_FALSE: [Step; 14] = [
    Step::Surround("é", 2, 2, false, true),
    Step::Rectangle(RECT, false),
    Step::Enter,
    Step::Enable,
    Step::Surround("é", 0, 2, true, false),
    Step::Surround("é", 1, 2, false, true),
    Step::Surround("é", 2, 1, false, true),
    Step::Surround("é", 3, 2, false, true),
    Step::Surround("é", 0, -1, false, true),
    Step::Rectangle(RECT, true),
    Step::Rectangle(NARROW, false),
    Step::Rectangle(LOW, false),
    Step::Commit(Taken::Begun),
    Step::Shows(Some(("é", 0, 2)), 0, (0, 0), Some(RECT)),
];

const THE_WORD_OF_A_COMMIT_IS_THE_LAST_SINCE_THE_ONE_BEFORE: [Step; 12] = [
    Step::Enter,
    Step::Enable,
    Step::Disable,
    Step::Commit(Taken::Nothing),
    Step::Enable,
    Step::Commit(Taken::Begun),
    Step::Enable,
    Step::Commit(Taken::Begun),
    Step::Disable,
    Step::Commit(Taken::Ended),
    Step::Disable,
    Step::Commit(Taken::Nothing),
];

const A_DISPLACED_FIELD_HOLDS_AGAIN_ONLY_BY_AN_ENABLE: [Step; 14] = [
    Step::Enter,
    Step::Enable,
    Step::Content(2, 3),
    Step::Commit(Taken::Begun),
    Step::Displace,
    Step::Shows(None, 0, (0, 0), None),
    Step::Commit(Taken::Nothing),
    Step::Disable,
    Step::Commit(Taken::Nothing),
    Step::Count(3),
    Step::Enable,
    Step::Displace,
    Step::Commit(Taken::Begun),
    Step::Shows(None, 0, (0, 0), None),
];

const COMMITS_COUNT_OUTSIDE_AND_A_LEAVE_KEEPS_ONLY_THEIR_COUNT: [Step; 14] = [
    Step::Enable,
    Step::Commit(Taken::Nothing),
    Step::Commit(Taken::Nothing),
    Step::Count(2),
    Step::Enter,
    Step::Enable,
    Step::Surround("ab", 0, 2, true, false),
    Step::Cause(1),
    Step::Content(2, 3),
    Step::Rectangle(RECT, true),
    Step::Commit(Taken::Begun),
    Step::Leave,
    Step::Shows(None, 0, (0, 0), None),
    Step::Count(3),
];

const THE_FIRST_TEXT_TAKES_THE_ROOM: [Step; 4] = [
    Step::Surround("a", 0, 0, false, true),
    Step::Enter,
    Step::Surround("a", 0, 0, true, false),
    Step::Surround("b", 1, 1, true, true),
];

const LISTS: [&[Step]; 7] = [
    &A_COMMIT_SHOWS_WHAT_WAS_SET_AND_THE_NEXT_ONE_NO_CAUSE,
    &AN_ENABLE_FORGETS_WHAT_WAS_SET_BEFORE_IT,
    &REQUESTS_WITHOUT_EFFECT_ANSWER_FALSE,
    &THE_WORD_OF_A_COMMIT_IS_THE_LAST_SINCE_THE_ONE_BEFORE,
    &A_DISPLACED_FIELD_HOLDS_AGAIN_ONLY_BY_AN_ENABLE,
    &COMMITS_COUNT_OUTSIDE_AND_A_LEAVE_KEEPS_ONLY_THEIR_COUNT,
    &THE_FIRST_TEXT_TAKES_THE_ROOM,
];

// Each list has a field of its own, and a room for a text before each of its steps.
#[test]
fn each_list_of_steps_is_answered(rt: HostRuntime) -> Result<(), Fail> {
    for steps in &LISTS {
        let mut field = Field::new(rt.alloc());
        let mut room = None;
        for step in *steps {
            if room.is_none() {
                room = Some(Room::new(rt.alloc())?);
            }
            take(&rt, rt.alloc(), &mut field, &mut room, *step)?;
        }
    }
    Ok(())
}
