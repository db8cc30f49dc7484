//! What a client's log goes on to, whatever events come. The bodies are empty: the laws are the
//! contracts.
ghost use Rattle.client_side.specs.Laws.{FieldLogGoesOn, FieldLogIsHeard};
ghost use Rattle.client_side.specs.Laws.{MethodLogGoesOn, MethodLogIsHeard};

use compose_method::Typist;

/// Whatever events take a field's client from one state to another, its log goes on by what they
/// make happen, and that is what a hearer of them is told. So what clause `log` of
/// `FieldClient::receive` says of some events holds of those of `ok` and `bad`, and of what was
/// heard.
pub fn field_log_law()
    ensures log { FieldLogGoesOn }
    ensures heard { FieldLogIsHeard }
{}

/// Whatever events take the method's client from one state to another, its log goes on by them, and
/// they are what a hearer is told. So what clause `log` of `MethodClient::receive` says of some
/// events holds of those of `ok` and `bad`, and of what was heard.
pub fn method_log_law<T: Typist>()
    ensures log { MethodLogGoesOn T.meanings }
    ensures heard { MethodLogIsHeard T.meanings }
{}
