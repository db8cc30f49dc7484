//! The state of one live peer.
ghost use Rattle.std.specs.Prelude.{◌≡◌, ◌≤◌, length, None, option_map, IfSome, IfOk, OnOk, OnErr};
ghost use Rattle.std.specs.FinMap as finite;
ghost use Rattle.im_objects.specs.Objects.{refusal_of};
ghost use Rattle.broker_model.specs.Waiting.{without_taken, with_tokens};
ghost use Rattle.broker_wire.specs.Asked.{asked};
ghost use Rattle.broker_audience.specs.Lives.{delivered};
ghost use Rattle.broker_audience.specs.Changes.{IsChanged, IsNewcomer};
ghost use Rattle.broker_audience.specs.Visits.{rewritten};

use crate::changes::change;
use crate::gathering::Gathering;
use broker_model::{TOKEN_LIMIT, TokenList};
use broker_wire::Meaning;
use im_objects::Table;
use out_store::Store;
use relay_model::{Act, Label, Role};
use std::alloc::Global;
use wio_core::NoMemory;

/// A live peer: its objects, what is stored for it, and what is gathered for it while an act is told.
#[derive(Drop)]
pub struct Live {
    /// From 1, in the order of joining.
    pub number: u32,
    /// The number of the entry with which it joined.
    pub label: Label,
    /// What it joined as.
    pub role: Role,
    /// Its objects, by its ids.
    pub table: Table,
    /// What waits for it.
    pub store: Store,
    /// What an act tells it, until that is put into the store.
    pub gathering: Gathering,
    /// Whether a group was left out.
    pub is_choked: bool,
    /// Whether its last message was refused.
    pub is_refused: bool,
    /// The tokens that wait for its messages, the first first: 256 at most.
    pub waiting: TokenList,
}

// A message that takes a token takes the first.
fn take_token(waiting: &mut TokenList, takes_token: bool)
    ensures { waiting.new ≡ without_taken takes_token waiting.old }
{
    if takes_token {
        waiting.drop_first();
    }
}

impl Live {
    /// A peer that joins, with its display alone. `NoMemory` is its one error.
    pub fn new(
        alloc: Global,
        capacity: usize,
        number: u32,
        label: Label,
        role: Role,
    ) -> Result<Live, NoMemory>
        ensures new { IfOk result (λ l. IsNewcomer capacity number label role l) }
    {
        Ok(Live {
            number,
            label,
            role,
            table: Table::new(alloc, label)?,
            store: Store::new(alloc, capacity)?,
            gathering: Gathering::new(alloc, capacity)?,
            is_choked: false,
            is_refused: false,
            waiting: TokenList::new(alloc),
        })
    }

    /// What a message to the object with the id makes, whether it was refused, and the token that it
    /// takes. `label` is the message's number. `NoMemory` is its one error, after which all is as before.
    pub fn change(&mut self, id: u32, label: Label, meaning: &Meaning) -> Result<(), NoMemory>
        requires unused { finite.get self.old.table.ids label ≡ None }
        requires accepted { IfSome meaning.now.made (λ new. refusal_of self.old.table new.id
            ≡ None) }
        ensures changed { OnOk result (IsChanged id label meaning.now.takes_token
            meaning.now.act (option_map asked meaning.now.made) self.old self.new) }
        ensures kept { self.new ≡ rewritten self.new self.old }
        ensures err { OnErr result (self.new ≡ self.old) }
    {
        change(&mut self.table, id, label, meaning)?;
        self.is_refused = matches!(meaning.act, Act::Bad { .. });
        take_token(&mut self.waiting, meaning.takes_token);
        Ok(())
    }

    /// What waits for it with more tokens behind. At most 256 wait: those that would be more are
    /// dropped. `NoMemory` is its one error.
    pub fn waiting_with(&self, alloc: Global, tokens: &[u32]) -> Result<TokenList, NoMemory>
        requires few { length self.now.waiting ≤ 256 }
        ensures value { IfOk result (λ list. list ≡ with_tokens self.now.waiting tokens.now) }
    {
        let mut waiting = self.waiting.copy(alloc)?;
        let free = TOKEN_LIMIT - waiting.len();
        let (more, _) = tokens.split_at(free.min(tokens.len()));
        for token in more {
            waiting.push(*token)?;
        }
        Ok(waiting)
    }

    /// What is gathered goes whole into the store, or is left out whole, which chokes it.
    #[inline(never)]
    pub(crate) fn deliver(&mut self)
        ensures { self.new ≡ delivered self.old }
    {
        if self.gathering.is_over()
            || !self
                .store
                .put_group(self.gathering.bytes(), self.gathering.tokens())
        {
            self.is_choked = true;
        }
    }
}
