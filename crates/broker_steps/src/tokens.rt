//! The tokens of descriptors that a peer sent.
use std::alloc::Global;
use std::marker::Model;
use wl_wire::NoMemory;

/// The most tokens that one frame carries, and so one step.
pub const TOKEN_LIMIT: usize = 256;

/// Numbers that stand for the descriptors that came with one frame, in their order. A step holds 1
/// to 256 of them. Contracts see the list of the numbers.
#[derive(Debug, Drop)]
pub struct TokenList {
    tokens: Vec<u32>,
}

impl Model for TokenList {
    ghost use Rattle.std.specs.Prelude.{List, ℕ};

    ghost Value = { List ℕ };

    ghost view = { λ list. list.tokens.items };
}

impl TokenList {
    ghost use Rattle.std.specs.Prelude.{◌≡◌, ◌++◌, [], ◌∷◌, length, drop, IfOk, OnOk, OnErr};

    /// No tokens yet. Takes no memory.
    pub fn new(alloc: Global) -> TokenList
        ensures value { result ≡ [] }
    {
        TokenList {
            tokens: Vec::new(alloc),
        }
    }

    /// A copy of the tokens of a slice. `NoMemory` is its one error.
    pub fn from_slice(alloc: Global, tokens: &[u32]) -> Result<TokenList, NoMemory>
        ensures value { IfOk result (λ list. list ≡ tokens.now) }
    {
        Ok(TokenList {
            tokens: tokens.to_vec(alloc)?,
        })
    }

    /// Puts a token after those that are there. `NoMemory` leaves the list as it was.
    pub fn push(&mut self, token: u32) -> Result<(), NoMemory>
        ensures pushed { OnOk result (self.new ≡ self.old ++ (token ∷ [])) }
        ensures same { OnErr result (self.new ≡ self.old) }
    {
        self.tokens.push(token)?;
        Ok(())
    }

    /// The first token is gone, if there is one.
    pub fn drop_first(&mut self)
        ensures rest { self.new ≡ drop 1 self.old }
    {
        if !self.tokens.is_empty() {
            self.tokens.remove(0);
        }
    }

    /// The tokens.
    pub fn as_slice(&self) -> &[u32]
        ensures value { result.now ≡ self.now }
    {
        &self.tokens
    }

    /// How many tokens there are.
    pub fn len(&self) -> usize
        ensures value { result ≡ length self.now }
    {
        self.tokens.len()
    }

    /// The same tokens in memory of their own. `NoMemory` is its one error.
    pub fn copy(&self, alloc: Global) -> Result<TokenList, NoMemory>
        ensures value { IfOk result (λ list. list ≡ self.now) }
    {
        TokenList::from_slice(alloc, &self.tokens)
    }
}
