//! The multiplexer of a file that is written: whatever text and entries the file carried over a medium,
//! it carries those that are taken in too, in packets on the medium or in its channels' builders.
#![tactic(auto)]

mod begin;
mod event;
mod fault;
mod mux;
mod own;
mod put;
mod tick;

pub use fault::{BeginFault, Full, TakeFault};
pub use mux::Mux;
