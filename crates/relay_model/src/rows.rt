//! The worked rows, which the definitions compute.
ghost use Rattle.relay_model.specs.Rows.{OrdinaryPath, SerialBeforeAnyDone, EarlierDone};
ghost use Rattle.relay_model.specs.Rows.{NewActivation, ResetAtActivation, EmptyBatch};
ghost use Rattle.relay_model.specs.Rows.{CommitsBeforeTheFocus, SecondField, LateMethod};
ghost use Rattle.relay_model.specs.Rows.{CursorInsideACharacter, DroppedSurface, FocusAgain};
ghost use Rattle.relay_model.specs.Rows.{CauseOfOneCommit, SetBeforeEnable, WholeBatch};
ghost use Rattle.relay_model.specs.HoldRows.{DisplacedFieldCommits, DisplacedFieldDisables};
ghost use Rattle.relay_model.specs.HoldRows.{DisplacedFieldReturns, DisplacedFieldDropped};
ghost use Rattle.relay_model.specs.KeyRows.{Routing, ReleasedAfterTheGrab, GrabsInTurn, Placement};
ghost use Rattle.relay_model.specs.KeyRows.{TwoPopups, PopupWithoutSurface, RectangleReset};
ghost use Rattle.relay_model.specs.KeyRows.{PopupBesidePopup, TooManyKeys};
ghost use Rattle.relay_model.specs.BoardRows.{OwnKeysPass, NoKeymap, ReleasesFollow};
ghost use Rattle.relay_model.specs.SessionRows.{GlobalsOfAnApp, GlobalsOfAMethod, AnsweredSync};
ghost use Rattle.relay_model.specs.SessionRows.{GlobalsOfAKeyed};
ghost use Rattle.relay_model.specs.SessionRows.{BoundSeat, RefusedMessages, DroppedThing};
ghost use Rattle.relay_model.specs.SessionRows.{EndedPeer};

/// What the definitions tell of the worked act lists is what was worked out by hand.
pub fn worked_rows()
    ensures ordinary_path { OrdinaryPath }
    ensures serial_before_any_done { SerialBeforeAnyDone }
    ensures earlier_done { EarlierDone }
    ensures new_activation { NewActivation }
    ensures reset_at_activation { ResetAtActivation }
    ensures empty_batch { EmptyBatch }
    ensures commits_before_the_focus { CommitsBeforeTheFocus }
    ensures second_field { SecondField }
    ensures late_method { LateMethod }
    ensures cursor_inside_a_character { CursorInsideACharacter }
    ensures dropped_surface { DroppedSurface }
    ensures focus_again { FocusAgain }
    ensures cause_of_one_commit { CauseOfOneCommit }
    ensures set_before_enable { SetBeforeEnable }
    ensures whole_batch { WholeBatch }
    ensures routing { Routing }
    ensures released_after_the_grab { ReleasedAfterTheGrab }
    ensures grabs_in_turn { GrabsInTurn }
    ensures placement { Placement }
    ensures two_popups { TwoPopups }
    ensures popup_without_surface { PopupWithoutSurface }
    ensures rectangle_reset { RectangleReset }
    ensures popup_beside_popup { PopupBesidePopup }
    ensures too_many_keys { TooManyKeys }
{}

/// The same of a field whose seat another field takes. The worked rows above have the first such
/// list, and the holder's own second enable.
pub fn hold_rows()
    ensures displaced_field_commits { DisplacedFieldCommits }
    ensures displaced_field_disables { DisplacedFieldDisables }
    ensures displaced_field_returns { DisplacedFieldReturns }
    ensures displaced_field_dropped { DisplacedFieldDropped }
{}

/// The same of virtual keyboards.
pub fn board_rows()
    ensures own_keys_pass { OwnKeysPass }
    ensures no_keymap { NoKeymap }
    ensures releases_follow { ReleasesFollow }
{}

/// The same of the acts that only sessions have.
pub fn session_rows()
    ensures globals_of_an_app { GlobalsOfAnApp }
    ensures globals_of_a_method { GlobalsOfAMethod }
    ensures globals_of_a_keyed { GlobalsOfAKeyed }
    ensures answered_sync { AnsweredSync }
    ensures bound_seat { BoundSeat }
    ensures refused_messages { RefusedMessages }
    ensures dropped_thing { DroppedThing }
    ensures ended_peer { EndedPeer }
{}
