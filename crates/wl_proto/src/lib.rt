//! The protocols: the rows of fourteen interfaces, and their requests and events read and written.
#![tactic(auto)]

mod argument;
mod bodies;
mod event;
mod event_reader;
mod event_writer;
mod interface;
mod laws;
mod reading;
mod refuse;
mod request;
mod request_reader;
mod request_writer;
mod rows;
mod table;

pub use event::Event;
pub use event_reader::read_event;
pub use event_writer::{event_len, write_event};
pub use interface::Interface;
pub use laws::{each_has_its_row, opcodes_rise, row_laws, written_messages_are_whole};
pub use refuse::Refuse;
pub use request::Request;
pub use request_reader::read_request;
pub use request_writer::{request_len, write_request};
pub use table::{
    CALLBACK_EVENTS, COMPOSITOR_REQUESTS, DISPLAY_EVENTS, DISPLAY_REQUESTS, INPUT_METHOD_EVENTS,
    INPUT_METHOD_MANAGER_REQUESTS, INPUT_METHOD_REQUESTS, INPUT_POPUP_SURFACE_EVENTS,
    INPUT_POPUP_SURFACE_REQUESTS, KEYBOARD_GRAB_EVENTS, KEYBOARD_GRAB_REQUESTS, Kind,
    REGISTRY_EVENTS, REGISTRY_REQUESTS, SEAT_EVENTS, SEAT_REQUESTS, SURFACE_REQUESTS, Sig,
    SigTable, TEXT_INPUT_EVENTS, TEXT_INPUT_MANAGER_REQUESTS, TEXT_INPUT_REQUESTS,
    VIRTUAL_KEYBOARD_MANAGER_REQUESTS, VIRTUAL_KEYBOARD_REQUESTS,
};
pub use wl_wire::{Bytes, Text};
