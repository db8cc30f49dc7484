//! What types in a trial: the method that its script has.
ghost use Rattle.std.specs.Prelude.{◌≡◌};

use compose_method::{Method, Typist};
use dict_method::DictMethod;
use wl_proto::Event;

/// The method of a trial: one that composes, or one with a dictionary.
#[derive(Debug, Drop)]
pub enum TrialTypist {
    /// It composes characters from keys.
    Compose(Method),
    /// It has a dictionary.
    Dict(DictMethod),
}

impl Typist for TrialTypist {
    ghost use Rattle.trial_run.specs.Typists.{meanings_of};

    ghost meanings = { meanings_of };

    fn press(&mut self, key: u32) -> Option<(&str, &str)> {
        match self {
            TrialTypist::Compose(method) => method.press(key),
            TrialTypist::Dict(method) => method.press(key),
        }
    }

    fn event(&mut self, event: &Event<'_>) {
        match self {
            TrialTypist::Compose(method) => method.event(event),
            TrialTypist::Dict(method) => method.event(event),
        }
    }
}
