//! The worked rows, which the definitions compute.
ghost use Rattle.broker_model.specs.Rows.{RegistryIsMade, GlobalsAreTold, NothingNamed, SizeIsBad};
ghost use Rattle.broker_model.specs.Rows.{IdIsTaken, IdIsUsedAgain, PointerIsMissing, SeatIsWrong};
ghost use Rattle.broker_model.specs.Rows.{OpcodeIsUnknown, BodyIsMalformed, IdIsTheServers};
ghost use Rattle.broker_model.specs.Rows.{GlobalIsNotOffered, SyncIsAnswered, StoreIsFull};
ghost use Rattle.broker_model.specs.Rows.{RefusedEnds};
ghost use Rattle.broker_model.specs.BaseRows.{BaseActs, BatchIsQueued, BatchIsTold, NobodyEnds};
ghost use Rattle.broker_model.specs.BaseRows.{AllIsOut, MethodIsTold, LastByteFits, OneByteTooMany};
ghost use Rattle.broker_model.specs.BaseRows.{TakenMakesRoom, EndsFollow, BatchIsLeftOut};
ghost use Rattle.broker_model.specs.BaseRows.{TokenIsPlaced, SurfaceHasARole};
ghost use Rattle.broker_model.specs.TokenRows.{TokensWait, TokensWeigh, LastTokenIsDropped};
ghost use Rattle.broker_model.specs.TokenRows.{FirstIsTaken, MomentsAreSaid, EndsHaveNoAuthor};
ghost use Rattle.broker_model.specs.BoardRows.{BoardIsMade, ManagerIsNotOffered, KeymapTakesToken};
ghost use Rattle.broker_model.specs.BoardRows.{KeymapLacksToken, BoardSpeaks, KeymapIsMissing};
ghost use Rattle.broker_model.specs.BoardRows.{StateIsBad, BoardIsDropped};

/// What the definitions make of small sessions is what was worked out by hand.
pub fn small_sessions()
    ensures registry_is_made { RegistryIsMade }
    ensures globals_are_told { GlobalsAreTold }
    ensures nothing_named { NothingNamed }
    ensures size_is_bad { SizeIsBad }
    ensures id_is_taken { IdIsTaken }
    ensures id_is_used_again { IdIsUsedAgain }
    ensures pointer_is_missing { PointerIsMissing }
    ensures seat_is_wrong { SeatIsWrong }
    ensures opcode_is_unknown { OpcodeIsUnknown }
    ensures body_is_malformed { BodyIsMalformed }
    ensures id_is_the_servers { IdIsTheServers }
    ensures global_is_not_offered { GlobalIsNotOffered }
    ensures sync_is_answered { SyncIsAnswered }
    ensures store_is_full { StoreIsFull }
    ensures refused_ends { RefusedEnds }
{}

/// The same of the base session: an application and an input method, a text that is committed, and
/// one whole batch.
pub fn base_session()
    ensures base_acts { BaseActs }
    ensures batch_is_queued { BatchIsQueued }
    ensures batch_is_told { BatchIsTold }
    ensures nobody_ends { NobodyEnds }
    ensures all_is_out { AllIsOut }
    ensures method_is_told { MethodIsTold }
    ensures last_byte_fits { LastByteFits }
    ensures one_byte_too_many { OneByteTooMany }
    ensures taken_makes_room { TakenMakesRoom }
    ensures ends_follow { EndsFollow }
    ensures batch_is_left_out { BatchIsLeftOut }
    ensures token_is_placed { TokenIsPlaced }
    ensures surface_has_a_role { SurfaceHasARole }
{}

/// The same of tokens that wait, and of the moments and authors of a session.
pub fn tokens_and_stamps()
    ensures tokens_wait { TokensWait }
    ensures tokens_weigh { TokensWeigh }
    ensures last_token_is_dropped { LastTokenIsDropped }
    ensures first_is_taken { FirstIsTaken }
    ensures moments_are_said { MomentsAreSaid }
    ensures ends_have_no_author { EndsHaveNoAuthor }
{}

/// The same of virtual keyboards, and of what is refused of them.
pub fn board_sessions()
    ensures board_is_made { BoardIsMade }
    ensures manager_is_not_offered { ManagerIsNotOffered }
    ensures keymap_takes_token { KeymapTakesToken }
    ensures keymap_lacks_token { KeymapLacksToken }
    ensures board_speaks { BoardSpeaks }
    ensures keymap_is_missing { KeymapIsMissing }
    ensures state_is_bad { StateIsBad }
    ensures board_is_dropped { BoardIsDropped }
{}
