//! The promise, over the definitions alone.
ghost use Rattle.broker_model.specs.Law.{RelayLaw, WholeGroups, NothingElse, NobodyIsDue, StoresHold};
ghost use Rattle.broker_model.specs.Tables.{FoundById, FoundByLabel, CountedLive};
ghost use Rattle.broker_model.specs.Stored.{GroupsAreSpaced, CellsArePut, CellsAreTaken};
ghost use Rattle.broker_model.specs.Stored.{BytesAreOut, TokensAreOut};
ghost use Rattle.broker_model.specs.Law.{BoardsMaySay, FewWait, KeymapsTake, StampEach, MomentsRise, StampsAgain};

/// After any outer steps, what is queued for each field is what is relayed to it, in order and once
/// each; or all of that but the last group, which did not fit the store of the field's peer, and
/// then that peer was ended for it. What is put or left out with such a group is its bytes and
/// nothing else, and any other step tells a field at most that it is entered or left, so there is
/// no done but those of the groups. No live peer is left that has to be ended, and no store holds
/// more than its capacity.
pub fn relay_law()
    ensures law { RelayLaw }
    ensures whole_groups { WholeGroups }
    ensures nothing_else { NothingElse }
    ensures nobody_is_due { NobodyIsDue }
    ensures stores_hold { StoresHold }
{}

/// A peer's table is told of each object that the peer makes and keeps, and of each that it drops.
/// After any entries the table of a live peer finds under each id the object that the id names, and
/// for each label the id of the live object that has it. It counts as many objects as the peer has
/// alive, its display with them.
pub fn table_law()
    ensures by_id { FoundById }
    ensures by_label { FoundByLabel }
    ensures counted { CountedLive }
{}

/// A store keeps what is out for its peer in cells: bytes, some with a token that goes with them.
/// The tokens of each group lie among its bytes as `Store::put_group` asks for it. If the store's
/// own test finds room for an entry's group, the group goes behind the cells, but for what of it was
/// taken ahead; otherwise the cells stay. What an entry takes goes from their front. Their bytes
/// are what is stored for the peer, and the tokens of the first of them are those that go with as
/// many of the next bytes.
pub fn store_law()
    ensures spaced { GroupsAreSpaced }
    ensures put { CellsArePut }
    ensures taken { CellsAreTaken }
    ensures bytes { BytesAreOut }
    ensures tokens { TokensAreOut }
{}

/// At most 256 tokens wait for a peer, and of all requests the keymap of a board alone takes one.
pub fn token_law()
    ensures few { FewWait }
    ensures keymaps_take { KeymapsTake }
{}

/// What an entry says of a board's keys and modifiers, the board may say: it has had a keymap, and a
/// key's state is 0 or 1. Any other such message is refused.
pub fn board_law()
    ensures { BoardsMaySay }
{}

/// After any entries, whatever their calls gave: each has one stamp, no moment falls, and the
/// stamps that the steps have give all of them again.
pub fn stamp_law()
    ensures each { StampEach }
    ensures rise { MomentsRise }
    ensures again { StampsAgain }
{}
