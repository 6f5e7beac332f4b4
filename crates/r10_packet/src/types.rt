//! Data types of packets.
//!
//! Source: IRIG 106-17 chapter 11, data types.

/// Computer-generated data, format 0, whose form is the user's: a loss report, or another recorder's.
pub const TYPE_USER: u8 = 0x00;

/// Computer-generated data, format 1: setup.
pub const TYPE_SETUP: u8 = 0x01;

/// Computer-generated data, format 2: recording events.
pub const TYPE_EVENT: u8 = 0x02;

/// Computer-generated data, format 3: an index.
pub const TYPE_INDEX: u8 = 0x03;

/// Time data, format 1.
pub const TYPE_TIME: u8 = 0x11;

/// MIL-STD-1553 data, format 1.
pub const TYPE_BUS: u8 = 0x19;

/// Discrete data, format 1.
pub const TYPE_DISCRETE: u8 = 0x29;

/// Message data, format 0.
pub const TYPE_MESSAGE: u8 = 0x30;

/// ARINC 429 data, format 0.
pub const TYPE_ARINC: u8 = 0x38;

/// UART data, format 0.
pub const TYPE_UART: u8 = 0x50;
