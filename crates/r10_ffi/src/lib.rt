//! The recorder as a library for programs in C and Rust.
#![tactic(auto)]

mod accounting;
mod calls;
mod civil;
mod handing;
mod handle;
mod held;
mod ports;
mod recorder;
mod writing;

pub use accounting::{r10_losses, r10_take_waiting, r10_untold};
pub use calls::{
    r10_account, r10_advance, r10_channel, r10_check_script, r10_close, r10_close_cursor,
    r10_commit, r10_count_at, r10_cursor, r10_disk_failed, r10_dismount, r10_erase, r10_event,
    r10_fault, r10_file, r10_files, r10_find, r10_format, r10_lost, r10_mount, r10_next,
    r10_offer_1553, r10_offer_arinc, r10_offer_discrete, r10_offer_message, r10_offer_uart,
    r10_open, r10_order, r10_orders, r10_pump, r10_queue, r10_seal, r10_set_aside, r10_start,
    r10_status, r10_stop, r10_take, r10_taken, r10_tick, r10_version,
};
pub use ports::{
    r10_carry_one, r10_outlet_close, r10_port_1553, r10_port_arinc, r10_port_close,
    r10_port_discrete, r10_port_lost, r10_port_message, r10_port_open, r10_port_state,
    r10_port_uart,
};
