//! The settings outside their limits, and the tables where a person finds them.

use crate::table::Fields;
use r10_machine::SettingsFault;
use r10_text::{Place, ScriptFault, Wrong};
use toml::Value;

pub const BLOCKS: &str = "a whole number from `directory` + 2 to 16777216";

pub const DIRECTORY: &str = "a whole number from 1 to 64";

pub const NODES: &str = "a whole number from 1 to 32765";

pub const VOLUME: &str = "1 to 32 letters, digits, \".\", \"_\" or \"-\"";

pub const ID: &str = "a whole number from 1 to 65535";

pub const CAPACITY: &str = "a whole number from 1 to 65536";

pub const CHECK: &str = "0, 8, 16 or 32";

pub const BYTES: &str = "a multiple of 4 from 128 to 524288";

pub const NUMBER: &str = "a whole number from 1 to 65535";

pub const BITS: &str = "a whole number from 1 to 31";

const OTHER_ID: &str = "another number than `time`, `event` and the channels above have";

/// The fault of a setting outside its limits.
pub fn limit_fault(top: Fields<'_>, fault: SettingsFault) -> ScriptFault {
    match fault {
        SettingsFault::Channel(0) => zero_fault(top),
        SettingsFault::Channel(id) => twice_fault(top, id),
        other => {
            let (id, key, wanted) = limit_of(other);
            let fields = match id {
                Some(id) => channel_with(top, id, 0),
                None => top,
            };
            fields.fault_at(key, wanted)
        }
    }
}

/// The channel whose setting is outside its limits, if it is a channel's, its key, and what is wanted.
fn limit_of(fault: SettingsFault) -> (Option<u16>, &'static str, &'static str) {
    match fault {
        SettingsFault::Blocks => (None, "blocks", BLOCKS),
        SettingsFault::Directory => (None, "directory", DIRECTORY),
        SettingsFault::Channel(id) => (Some(id), "id", ID),
        SettingsFault::Capacity(id) => (Some(id), "capacity", CAPACITY),
        SettingsFault::Check(id) => (Some(id), "check", CHECK),
        SettingsFault::Bytes(id) => (Some(id), "bytes", BYTES),
        SettingsFault::Number(id) => (Some(id), "number", NUMBER),
        SettingsFault::Bits(id) => (Some(id), "bits", BITS),
        SettingsFault::Nodes => (None, "nodes", NODES),
        SettingsFault::Volume => (None, "volume", VOLUME),
    }
}

/// The channel tables, none where there is no array of them.
fn channel_tables<'a>(top: Fields<'a>) -> &'a [Value] {
    match top.tables("channel") {
        Ok(values) => values,
        Err(_) => &[],
    }
}

/// The fault of a number of channel tables, or else of an ID 0.
fn zero_fault(top: Fields<'_>) -> ScriptFault {
    let count = channel_tables(top).len();
    if count == 0 || count > 64 {
        return top.of_place(Place::Text).fault(Wrong::Tables { count });
    }
    let (fields, key) = if top.is_number("time", 0) {
        (top, "time")
    } else if top.is_number("event", 0) {
        (top, "event")
    } else {
        (channel_with(top, 0, 0), "id")
    };
    fields.fault_at(key, ID)
}

/// The fault of an ID that is there before.
fn twice_fault(top: Fields<'_>, id: u16) -> ScriptFault {
    let (time, event) = (top.is_number("time", id), top.is_number("event", id));
    if time && event {
        return top.fault_at("event", "another number than `time` has");
    }
    let before = if time || event { 0 } else { 1 };
    channel_with(top, id, before).fault_at("id", OTHER_ID)
}

/// The channel table with this ID after so many others with it, or else the keys above the tables.
fn channel_with<'a>(top: Fields<'a>, id: u16, before: usize) -> Fields<'a> {
    let mut number = 0usize;
    let mut left = before;
    for value in channel_tables(top) {
        number = number.saturating_add(1);
        let Some(fields) = top.table_in(value, Place::Channel(number)) else {
            return top;
        };
        if fields.is_number("id", id) {
            if left == 0 {
                return fields;
            }
            left = left.saturating_sub(1);
        }
    }
    top
}
