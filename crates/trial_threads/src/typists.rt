//! What types in a trial, by the rules of keys that its script has.
ghost use Rattle.std.specs.Prelude.{◌≡◌, IfOk};
ghost use Rattle.compose_method.specs.Table.{IsTable};
ghost use Rattle.dict_method.specs.Dictionary.{IsDictionary};
ghost use Rattle.trial_run.specs.Trial.{typist_by};
ghost use Rattle.trial_jobs.specs.MethodLaw.{IsFresh};

use compose_method::Method;
use dict_method::DictMethod;
use std::alloc::Global;
use trial_run::TrialTypist;
use trial_script::KeyRules;
use wio_core::NoMemory;

/// The method by the rules of keys, as it is before anything came: one with a dictionary where
/// there is a word, else one that composes.
pub fn typist_by(alloc: Global, rules: KeyRules) -> Result<TrialTypist, NoMemory>
    requires { IsTable rules.table × IsDictionary rules.dict }
    ensures is { IfOk result (λ typist. typist ≡ typist_by rules) }
    ensures fresh { IfOk result IsFresh }
{
    let KeyRules { table, dict } = rules;
    if dict.has_words() {
        return Ok(TrialTypist::Dict(DictMethod::new(alloc, table, dict)?));
    }
    Ok(TrialTypist::Compose(Method::new(alloc, table)?))
}
