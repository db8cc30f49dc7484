//! What a row becomes, when it is written.

// An argument of a kind.
macro_rules! argument {
    (uint $value:ident) => { Argument::Word($value) };
    (int $value:ident) => { int_argument($value) };
    (text $value:ident) => { text_argument($value) };
    (string $value:ident) => { string_argument($value) };
    (descriptor $value:ident) => { Argument::Token($value) };
}

// The row is written, by the function for so many arguments.
macro_rules! put_row {
    ($put:ident $out:ident $id:ident $opcode:literal $($kind:ident $value:ident),*) => {
        $put($out, $id, $opcode, $(argument!($kind $value)),*)
    };
}

pub(crate) use argument;
pub(crate) use put_row;
