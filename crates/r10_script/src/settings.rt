//! The settings of a script.

ghost use Rattle.std.specs.Prelude.{◌≡◌, Some, codes, IfOk};
ghost use Rattle.toml.specs.View.{table_view};
ghost use Rattle.r10_script.specs.Keys.{items_or_none_at, text_at, HasOnly};
ghost use Rattle.r10_script.specs.Kinds.{channel_keys, kind_word};
ghost use Rattle.r10_script.specs.Script.{AreScriptSettings, ItemsAsk, IsBits, IsChannelTable};

use crate::limits::{
    BITS, BLOCKS, BYTES, CAPACITY, CHECK, DIRECTORY, ID, NODES, NUMBER, VOLUME, limit_fault,
};
use crate::table::Fields;
use r10_body::{ChannelSpec, Kind};
use r10_machine::Settings;
use r10_text::{Place, ScriptFault};
use std::alloc::Global;

const KINDS: &str = "one of: uart, 1553, arinc, discrete, message";

/// The settings that the keys of a script spell.
pub fn settings_of(alloc: Global, top: Fields<'_>) -> Result<Settings, ScriptFault>
    ensures { IfOk result (λ settings. AreScriptSettings (table_view top.entry.table.now) settings) }
{
    let channels = channels_of(alloc, top)?;
    let volume = top.text_bytes("volume", VOLUME)?;
    let blocks = top.size_of("blocks", BLOCKS)?;
    let directory = top.size_of("directory", DIRECTORY)?;
    let nodes = top.size_of("nodes", NODES)?;
    let time = top.short_of("time", ID)?;
    let event = top.short_of("event", ID)?;
    match Settings::of(blocks, directory, volume, nodes, time, event, channels) {
        Ok(settings) => Ok(settings),
        Err(fault) => Err(limit_fault(top, fault)),
    }
}

fn channels_of(alloc: Global, top: Fields<'_>) -> Result<Vec<ChannelSpec>, ScriptFault>
    ensures { IfOk result
        (λ channels. ItemsAsk IsChannelTable (items_or_none_at (table_view top.entry.table.now) (codes "channel")) channels.items) }
{
    let mut channels = Vec::new(alloc);
    let mut number = 0usize;
    for value in top.tables("channel")? {
        number = number.saturating_add(1);
        let fields = top.table_of(value, "channel", Place::Channel(number))?;
        channels.push(channel_of(fields)?)?;
    }
    Ok(channels)
}

fn channel_of(fields: Fields<'_>) -> Result<ChannelSpec, ScriptFault>
    ensures { IfOk result (λ spec. IsChannelTable (table_view fields.entry.table.now) spec) }
{
    let kind = kind_of(fields)?;
    let bits = bits_of(kind, fields)?;
    Ok(ChannelSpec {
        id: fields.short_of("id", ID)?,
        kind,
        capacity: fields.size_of("capacity", CAPACITY)?,
        check: fields.size_of("check", CHECK)?,
        bytes: fields.size_of("bytes", BYTES)?,
        number: fields.size_of("number", NUMBER)?,
        bits,
    })
}

/// The number of bits of a discrete channel, 0 of any other. A key that the table of such a channel does not have is refused.
fn bits_of(kind: Kind, fields: Fields<'_>) -> Result<usize, ScriptFault>
    ensures { IfOk result (λ bits. IsBits kind (table_view fields.entry.table.now) bits
        × HasOnly (channel_keys kind) (table_view fields.entry.table.now)) }
{
    match kind {
        Kind::Discrete => {
            fields.only(&["id", "kind", "capacity", "check", "bytes", "number", "bits"])?;
            fields.size_of("bits", BITS)
        }
        Kind::Uart | Kind::Bus1553 | Kind::Arinc | Kind::Message => {
            fields.only(&["id", "kind", "capacity", "check", "bytes", "number"])?;
            Ok(0)
        }
    }
}

/// The kind that the key `kind` names.
pub fn kind_of(fields: Fields<'_>) -> Result<Kind, ScriptFault>
    ensures { IfOk result (λ kind. text_at (table_view fields.entry.table.now) (codes "kind") ≡ Some (kind_word kind)) }
{
    match fields.text("kind", KINDS)? {
        "uart" => Ok(Kind::Uart),
        "1553" => Ok(Kind::Bus1553),
        "arinc" => Ok(Kind::Arinc),
        "discrete" => Ok(Kind::Discrete),
        "message" => Ok(Kind::Message),
        _ => Err(fields.fault_at("kind", KINDS)),
    }
}
