//! The rows of the protocols: for each interface and direction the opcodes and the kinds of their arguments. The
//! specification reads these very constants.
ghost use Rattle.std.specs.Prelude.{◌≡◌, ◌∷◌, ◌↔◌, IsTrue};
ghost use Rattle.std.specs.List.Sorted.{IsStrictlyIncreasing};
ghost use Rattle.wl_proto.specs.Tables.{opcodes, rises};

/// The kind of an argument.
#[derive(Clone, Copy, Debug, PartialEq, Eq)]
pub enum Kind {
    /// `uint`, one word.
    Uint,
    /// `int`, one word in two's complement.
    Int,
    /// `object`, the id of an object of the peer.
    Object,
    /// `new_id`, the id that a new object gets.
    NewId,
    /// `string` that may not be null.
    Text,
    /// `string` that may be null.
    TextOrNull,
    /// `fd`, which takes no bytes and is a token.
    Descriptor,
}

/// One row: an opcode and the kinds of its arguments in their order, at most five, from the left.
#[derive(Clone, Copy, Debug)]
pub struct Sig {
    /// The opcode.
    pub opcode: u16,
    /// The kinds of the arguments, and `None` behind the last.
    pub kinds: [Option<Kind>; 5],
}

/// The rows of one interface in one direction, whose opcodes rise.
#[derive(Clone, Copy, Debug)]
pub struct SigTable<const N: usize> {
    /// The rows.
    pub rows: [Sig; N],
}

impl<const N: usize> SigTable<N> {
    /// Whether the opcodes of the table rise, whatever its number of rows, so that no two rows have the same.
    pub fn opcodes_rise(&self) -> bool
        ensures { IsTrue result ↔ IsStrictlyIncreasing (opcodes self.now.rows) }
    {
        rise(&self.rows)
    }
}

fn rise(rows: &[Sig]) -> bool
    ensures { result ≡ rises (opcodes rows.now) }
{
    match rows {
        [] => true,
        [first, rest @ ..] => rise_from(first.opcode, rest),
    }
}

// Whether each opcode is above the one before it, and the first above `low`.
fn rise_from(low: u16, rows: &[Sig]) -> bool
    ensures { result ≡ rises (low ∷ opcodes rows.now) }
{
    match rows {
        [] => true,
        [first, rest @ ..] => low < first.opcode && rise_from(first.opcode, rest),
    }
}

macro_rules! sig {
    ($opcode:literal) => {
        Sig { opcode: $opcode, kinds: [None, None, None, None, None] }
    };
    ($opcode:literal $a:ident) => {
        Sig { opcode: $opcode, kinds: [Some(Kind::$a), None, None, None, None] }
    };
    ($opcode:literal $a:ident $b:ident) => {
        Sig { opcode: $opcode, kinds: [Some(Kind::$a), Some(Kind::$b), None, None, None] }
    };
    ($opcode:literal $a:ident $b:ident $c:ident) => {
        Sig { opcode: $opcode, kinds: [Some(Kind::$a), Some(Kind::$b), Some(Kind::$c), None, None] }
    };
    ($opcode:literal $a:ident $b:ident $c:ident $d:ident) => {
        Sig {
            opcode: $opcode,
            kinds: [Some(Kind::$a), Some(Kind::$b), Some(Kind::$c), Some(Kind::$d), None],
        }
    };
    ($opcode:literal $a:ident $b:ident $c:ident $d:ident $e:ident) => {
        Sig {
            opcode: $opcode,
            kinds: [Some(Kind::$a), Some(Kind::$b), Some(Kind::$c), Some(Kind::$d), Some(Kind::$e)],
        }
    };
}

/// The requests of `wl_display`.
pub const DISPLAY_REQUESTS: SigTable<2> = SigTable {
    rows: [sig!(0 NewId), sig!(1 NewId)],
};

/// The request of `wl_registry`.
pub const REGISTRY_REQUESTS: SigTable<1> = SigTable {
    rows: [sig!(0 Uint Text Uint NewId)],
};

/// The request of `wl_compositor` that is known: `create_surface`.
pub const COMPOSITOR_REQUESTS: SigTable<1> = SigTable {
    rows: [sig!(0 NewId)],
};

/// The requests of `wl_surface` that are known: `destroy`, `damage` and `commit`.
pub const SURFACE_REQUESTS: SigTable<3> = SigTable {
    rows: [sig!(0), sig!(2 Int Int Int Int), sig!(6)],
};

/// The requests of `wl_seat`.
pub const SEAT_REQUESTS: SigTable<3> = SigTable {
    rows: [sig!(0 NewId), sig!(1 NewId), sig!(2 NewId)],
};

/// The requests of `zwp_text_input_manager_v3`.
pub const TEXT_INPUT_MANAGER_REQUESTS: SigTable<2> = SigTable {
    rows: [sig!(0), sig!(1 NewId Object)],
};

/// The requests of `zwp_text_input_v3`.
pub const TEXT_INPUT_REQUESTS: SigTable<8> = SigTable {
    rows: [
        sig!(0),
        sig!(1),
        sig!(2),
        sig!(3 Text Int Int),
        sig!(4 Uint),
        sig!(5 Uint Uint),
        sig!(6 Int Int Int Int),
        sig!(7),
    ],
};

/// The requests of `zwp_input_method_manager_v2`.
pub const INPUT_METHOD_MANAGER_REQUESTS: SigTable<2> = SigTable {
    rows: [sig!(0 Object NewId), sig!(1)],
};

/// The requests of `zwp_input_method_v2`.
pub const INPUT_METHOD_REQUESTS: SigTable<7> = SigTable {
    rows: [
        sig!(0 Text),
        sig!(1 Text Int Int),
        sig!(2 Uint Uint),
        sig!(3 Uint),
        sig!(4 NewId Object),
        sig!(5 NewId),
        sig!(6),
    ],
};

/// The request of `zwp_input_popup_surface_v2`.
pub const INPUT_POPUP_SURFACE_REQUESTS: SigTable<1> = SigTable { rows: [sig!(0)] };

/// The request of `zwp_input_method_keyboard_grab_v2`.
pub const KEYBOARD_GRAB_REQUESTS: SigTable<1> = SigTable { rows: [sig!(0)] };

/// The request of `zwp_virtual_keyboard_manager_v1`.
pub const VIRTUAL_KEYBOARD_MANAGER_REQUESTS: SigTable<1> = SigTable {
    rows: [sig!(0 Object NewId)],
};

/// The requests of `zwp_virtual_keyboard_v1`.
pub const VIRTUAL_KEYBOARD_REQUESTS: SigTable<4> = SigTable {
    rows: [
        sig!(0 Uint Descriptor Uint),
        sig!(1 Uint Uint Uint),
        sig!(2 Uint Uint Uint Uint),
        sig!(3),
    ],
};

/// The events of `wl_display`.
pub const DISPLAY_EVENTS: SigTable<2> = SigTable {
    rows: [sig!(0 Object Uint Text), sig!(1 Uint)],
};

/// The events of `wl_registry`.
pub const REGISTRY_EVENTS: SigTable<2> = SigTable {
    rows: [sig!(0 Uint Text Uint), sig!(1 Uint)],
};

/// The event of `wl_callback`.
pub const CALLBACK_EVENTS: SigTable<1> = SigTable {
    rows: [sig!(0 Uint)],
};

/// The event of `wl_seat`.
pub const SEAT_EVENTS: SigTable<1> = SigTable {
    rows: [sig!(0 Uint)],
};

/// The events of `zwp_text_input_v3`.
pub const TEXT_INPUT_EVENTS: SigTable<6> = SigTable {
    rows: [
        sig!(0 Object),
        sig!(1 Object),
        sig!(2 TextOrNull Int Int),
        sig!(3 TextOrNull),
        sig!(4 Uint Uint),
        sig!(5 Uint),
    ],
};

/// The events of `zwp_input_method_v2`.
pub const INPUT_METHOD_EVENTS: SigTable<7> = SigTable {
    rows: [
        sig!(0),
        sig!(1),
        sig!(2 Text Uint Uint),
        sig!(3 Uint),
        sig!(4 Uint Uint),
        sig!(5),
        sig!(6),
    ],
};

/// The event of `zwp_input_popup_surface_v2`.
pub const INPUT_POPUP_SURFACE_EVENTS: SigTable<1> = SigTable {
    rows: [sig!(0 Int Int Int Int)],
};

/// The events of `zwp_input_method_keyboard_grab_v2`.
pub const KEYBOARD_GRAB_EVENTS: SigTable<4> = SigTable {
    rows: [
        sig!(0 Uint Descriptor Uint),
        sig!(1 Uint Uint Uint Uint),
        sig!(2 Uint Uint Uint Uint Uint),
        sig!(3 Int Int),
    ],
};
