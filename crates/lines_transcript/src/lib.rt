//! Lines of text as they are printed: the steps of a session, what is told, and the lines of a
//! transcript.
//!
//! The transcript of a journal, printed by who watches it.
#![tactic(auto)]

mod laws;
mod printer;
mod printing;
mod seat_line;
mod short_line;
mod step_line;
mod told_line;
mod transcript_line;
mod worked;

pub use laws::{text_from_the_beginning, watched_in_parts};
pub use printer::Printer;
pub use seat_line::{add_seat_end, add_seat_full, add_seat_lines};
pub use step_line::{messages_are_whole, print_stamped, print_step};
pub use told_line::{print_told, write_told};
pub use transcript_line::{
    print_ended, print_out, print_pass, print_placed, print_took, print_vmods, write_ended,
    write_out, write_pass, write_placed, write_took, write_vmods,
};
pub use worked::worked_printed_lines;
