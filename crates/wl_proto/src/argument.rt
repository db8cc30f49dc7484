//! The arguments of a message as the writer takes them, one by one.
ghost use Rattle.std.specs.Prelude.{◌≡◌, ◌+◌, ◌<◌, ◌≤◌, ◌^◌, ◌++◌, List, [], ◌∷◌, length, drop};
ghost use Rattle.std.specs.Option.{option_copied};
ghost use Rattle.wl_wire.specs.Spelling.{text_len};
ghost use Rattle.wl_wire.specs.Writing.{written, room};
ghost use Rattle.wl_proto.specs.Grammar.{signed, string_value};
ghost use Rattle.wl_proto.specs.Grammar as grammar;
ghost use Rattle.wl_proto.specs.Spelling.{value_bytes, value_len, values_len, spelling, row_bytes};
ghost use Rattle.wl_proto.specs.Arguments.{value_of, values_of, out_after, most, put_result};

use wl_wire::ArgWriter;

// An argument of a message.
#[derive(Clone, Copy)]
pub enum Argument<'a> {
    Word(u32),
    Signed(i32),
    Text(&'a str),
    Null,
    Token(u32),
}

pub fn text_argument<'a>(text: &'a str) -> Argument<'a>
    ensures value { value_of result ≡ grammar.text text.entry.now }
    ensures len { length text.entry.now < 2 ^ 63 }
{
    let _len = text.len();
    Argument::Text(text)
}

pub fn string_argument<'a>(text: Option<&'a str>) -> Argument<'a>
    ensures { value_of result ≡ string_value (option_copied text.entry) }
{
    match text {
        Some(text) => Argument::Text(text),
        None => Argument::Null,
    }
}

pub fn int_argument(n: i32) -> Argument<'static>
    ensures { value_of result ≡ signed n }
{
    Argument::Signed(n)
}

// How many bytes a text takes.
pub fn text_size(text: &str) -> usize
    ensures size { result ≡ text_len (length text.now) }
    ensures below { result < 2 ^ 63 + 8 }
{
    let len = text.len();
    4 + len + (4 - len % 4)
}

// How many bytes a string takes that may be null.
pub fn string_size(text: Option<&str>) -> usize
    ensures size { result ≡ value_len (string_value (option_copied text.entry)) }
    ensures below { result < 2 ^ 63 + 8 }
{
    match text {
        Some(text) => text_size(text),
        None => 4,
    }
}

fn len_of(argument: Argument) -> usize
    requires { value_len (value_of argument) < 2 ^ 64 }
    ensures { result ≡ value_len (value_of argument.entry) }
{
    match argument {
        Argument::Word(_) => 4,
        Argument::Signed(_) => 4,
        Argument::Text(text) => 4 + text.len() + (4 - text.len() % 4),
        Argument::Null => 4,
        Argument::Token(_) => 0,
    }
}

fn len_of_all(arguments: &[Argument]) -> usize
    requires { values_len (values_of arguments.now) < 2 ^ 64 }
    ensures { result ≡ values_len (values_of arguments.now) }
{
    match arguments {
        [] => 0,
        [first, rest @ ..] => len_of(*first) + len_of_all(rest),
    }
}

// How many bytes a message with these arguments has, its header included.
pub fn message_size(arguments: &[Argument]) -> usize
    requires { 8 + values_len (values_of arguments.now) < 2 ^ 64 }
    ensures { result ≡ 8 + values_len (values_of arguments.now) }
{
    8 + len_of_all(arguments)
}

fn put(args: &mut ArgWriter, argument: Argument)
    requires short { value_len (value_of argument) ≤ 4096 }
    requires room { value_len (value_of argument) ≤ length (room args.old) }
    ensures same_reference { args.new.out.ghost_name ≡ args.old.out.ghost_name }
    ensures at { args.new.at ≡ args.old.at + value_len (value_of argument.entry) }
    ensures written { written args.new ≡ written args.old ++ value_bytes (value_of argument.entry) }
    ensures room { room args.new ≡ drop (value_len (value_of argument.entry)) (room args.old) }
    ensures left { length (room args.new) + value_len (value_of argument.entry) ≡ length
        (room args.old) }
{
    match argument {
        Argument::Word(n) => args.uint(n),
        Argument::Signed(n) => args.int(n),
        Argument::Text(text) => args.string(text),
        Argument::Null => args.uint(0),
        Argument::Token(_) => {}
    }
}

fn put_all(args: &mut ArgWriter, arguments: &[Argument])
    requires short { values_len (values_of arguments.now) ≤ 4096 }
    requires room { values_len (values_of arguments.now) ≤ length (room args.old) }
    ensures same_reference { args.new.out.ghost_name ≡ args.old.out.ghost_name }
    ensures at { args.new.at ≡ args.old.at + values_len (values_of arguments.now) }
    ensures written { written args.new ≡ written args.old ++ spelling (values_of arguments.now) }
    ensures room { room args.new ≡ drop (values_len (values_of arguments.now)) (room args.old) }
{
    match arguments {
        [] => {}
        [first, rest @ ..] => {
            put(args, *first);
            put_all(args, rest)
        }
    }
}

#[tactic(auto, unfolding(crate::specs::Arguments::out_after))]
fn put_parts(out: &mut [u8], receiver: u32, opcode: u32, arguments: &[Argument]) -> usize
    requires opcode { opcode < 2 ^ 16 }
    requires short { 8 + values_len (values_of arguments.now) ≤ 4096 }
    requires room { 8 + values_len (values_of arguments.now) ≤ length out.old }
    ensures len { result ≡ 8 + values_len (values_of arguments.now) }
    ensures bytes { out.new ≡ out_after receiver opcode (values_of arguments.now) out.old }
{
    let size = message_size(arguments) as u32;
    let mut args = ArgWriter::new(out);
    args.uint(receiver);
    args.uint(65536 * size + opcode);
    put_all(&mut args, arguments);
    args.finish()
}

// Writes the header and the arguments, and says how many bytes they are.
pub fn put_message(out: &mut [u8], receiver: u32, opcode: u32, arguments: &[Argument]) -> usize
    requires opcode { opcode < 2 ^ 16 }
    requires short { 8 + values_len (values_of arguments.now) ≤ 4096 }
    requires room { 8 + values_len (values_of arguments.now) ≤ length out.old }
    ensures len { result ≡ 8 + values_len (values_of arguments.now) }
    ensures bytes { out.new ≡ row_bytes receiver opcode (values_of arguments.now) ++ drop result
        out.old }
{
    put_parts(out, receiver, opcode, arguments)
}

// The same with one premise and one clause, as each row has it.
#[inline(always)]
#[tactic(auto, unfolding(crate::specs::Arguments::most, crate::specs::Arguments::put_result))]
pub fn put_arguments(out: &mut [u8], receiver: u32, opcode: u16, arguments: &[Argument]) -> usize
    requires { 8 + values_len (values_of arguments.now) ≤ most out.old }
    ensures { put_result receiver opcode (values_of arguments.now) out.old ≡ (result, out.new) }
{
    put_message(out, receiver, opcode as u32, arguments)
}

// A message with no argument.
#[inline(always)]
pub fn put_nothing(out: &mut [u8], receiver: u32, opcode: u16) -> usize
    requires { 8 ≤ most out.old }
    ensures { put_result receiver opcode [] out.old ≡ (result, out.new) }
{
    put_arguments(out, receiver, opcode, &[])
}

// A message with one argument.
#[inline(always)]
pub fn put_one(out: &mut [u8], receiver: u32, opcode: u16, first: Argument) -> usize
    requires { 8 + values_len (values_of (first ∷ [])) ≤ most out.old }
    ensures { put_result receiver opcode (values_of (first.entry ∷ [])) out.old
        ≡ (result, out.new) }
{
    put_arguments(out, receiver, opcode, &[first])
}

// A message with two arguments.
#[inline(always)]
pub fn put_two(
    out: &mut [u8],
    receiver: u32,
    opcode: u16,
    first: Argument,
    second: Argument,
) -> usize
    requires { 8 + values_len (values_of (first ∷ second ∷ [])) ≤ most out.old }
    ensures { put_result receiver opcode (values_of (first.entry ∷ second.entry ∷ [])) out.old
        ≡ (result, out.new) }
{
    put_arguments(out, receiver, opcode, &[first, second])
}

// A message with three arguments.
#[inline(always)]
pub fn put_three(
    out: &mut [u8],
    receiver: u32,
    opcode: u16,
    first: Argument,
    second: Argument,
    third: Argument,
) -> usize
    requires { 8 + values_len (values_of (first ∷ second ∷ third ∷ [])) ≤ most out.old }
    ensures { put_result receiver opcode
        (values_of (first.entry ∷ second.entry ∷ third.entry ∷ [])) out.old ≡
        (result, out.new) }
{
    put_arguments(out, receiver, opcode, &[first, second, third])
}

// A message with four arguments.
#[inline(always)]
pub fn put_four(
    out: &mut [u8],
    receiver: u32,
    opcode: u16,
    first: Argument,
    second: Argument,
    third: Argument,
    fourth: Argument,
) -> usize
    requires { 8 + values_len (values_of (first ∷ second ∷ third ∷ fourth ∷ [])) ≤ most out.old }
    ensures { put_result receiver opcode
        (values_of (first.entry ∷ second.entry ∷ third.entry ∷ fourth.entry ∷ [])) out.old ≡
        (result, out.new) }
{
    put_arguments(out, receiver, opcode, &[first, second, third, fourth])
}

// A message with five arguments.
#[inline(always)]
pub fn put_five(
    out: &mut [u8],
    receiver: u32,
    opcode: u16,
    first: Argument,
    second: Argument,
    third: Argument,
    fourth: Argument,
    fifth: Argument,
) -> usize
    requires { 8 + values_len (values_of (first ∷ second ∷ third ∷ fourth ∷ fifth ∷ [])) ≤
        most out.old }
    ensures { put_result receiver opcode
        (values_of (first.entry ∷ second.entry ∷ third.entry ∷ fourth.entry ∷ fifth.entry ∷ []))
        out.old ≡ (result, out.new) }
{
    put_arguments(
        out,
        receiver,
        opcode,
        &[first, second, third, fourth, fifth],
    )
}
