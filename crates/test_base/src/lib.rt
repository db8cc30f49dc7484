//! The tests of the crates that stand alone, and of the protocols' tables with what stands on them: what no clause of
//! theirs says, each public call once on its happy path, and vectors from outside. They stand apart, so that those
//! crates are proved once and not again beside their tests.
#![tactic(auto)]

#[cfg(test)]
mod compose_method_tests;
#[cfg(test)]
mod desc_frame_tests;
#[cfg(test)]
mod equal;
#[cfg(test)]
mod field_state_tests;
#[cfg(test)]
mod im_objects_tests;
#[cfg(test)]
mod io_tests;
#[cfg(test)]
mod kbd_grab_tests;
#[cfg(test)]
mod line_reader_tests;
#[cfg(test)]
mod message_row_tests;
#[cfg(test)]
mod popup_place_tests;
#[cfg(test)]
mod serial_count_tests;
#[cfg(test)]
mod store_tests;
#[cfg(test)]
mod trial_field_tests;
#[cfg(test)]
mod virt_keys_tests;
#[cfg(test)]
mod wl_proto_tests;
#[cfg(test)]
mod wl_wire_tests;
