//! Lines of text as they are read: those of act lists, sessions and shell links.
#![tactic(auto)]

mod act_line;
mod cutting;
mod hex_digits;
mod hex_words;
mod line;
mod numerals;
mod piece_line;
mod seat_line;
mod session_line;
mod shell_line;
mod stamped_line;
mod usual_line;
pub mod words;

pub use line::{
    BadLine, Form, LINE_LIMIT, Line, SessionLine, one_spelling, read_line, worked_lines,
};
pub use piece_line::{read_piece, read_stamped_piece};
pub use seat_line::{
    Address, SEAT_LIMIT, SeatLine, SeatsHeader, SeatsLine, read_address, read_seat_line,
    read_seats_header,
};
