//! The messages that steps offer, and those of a feed.

ghost use Rattle.std.specs.Prelude.{◌≡◌, ◌==◌, Some, IfOk};
ghost use Rattle.std.specs.List.{find};
ghost use Rattle.toml.specs.View.{table_view};
ghost use Rattle.r10_body.specs.declared.message.Kind.TheVariants as kinds;
ghost use Rattle.r10_script.specs.Kinds.{kind_word, item_keys, offer_keys};
ghost use Rattle.r10_script.specs.Keys.{HasOnly};
ghost use Rattle.r10_script.specs.Offers.{IsOffered, AreValues, offered_word};

use crate::settings::kind_of;
use crate::table::Fields;
use r10_body::{
    ArincMessage, BusMessage, ChannelSpec, DataMessage, DiscreteMessage, Kind, Message, UartMessage,
};
use r10_count::{Bytes, Items};
use r10_text::{ScriptFault, Wrong};

/// The message that a step offers to this channel: of the kind that the step names, or else of the channel's.
pub fn offered_of(
    channels: &[ChannelSpec],
    channel: u16,
    fields: Fields<'_>,
) -> Result<Message, ScriptFault>
    ensures { IfOk result (λ message. IsOffered channels.now channel (table_view fields.entry.table.now) message) }
{
    let kind = offered_kind(channels, channel, fields)?;
    only_offered(kind, fields)?;
    message_of(kind, fields)
}

/// Refuses a key that no step has that offers a message of this kind.
fn only_offered(kind: Kind, fields: Fields<'_>) -> Result<(), ScriptFault>
    ensures { IfOk result (λ _. HasOnly (offer_keys kind) (table_view fields.entry.table.now)) }
{
    match kind {
        Kind::Uart => fields.only(&["do", "channel", "count", "kind", "parity", "sub", "bytes"]),
        Kind::Bus1553 => {
            fields.only(&["do", "channel", "count", "kind", "status", "gap", "words"])
        }
        Kind::Arinc => fields.only(&[
            "do", "channel", "count", "kind", "bus", "format", "parity", "high", "data",
        ]),
        Kind::Discrete => fields.only(&["do", "channel", "count", "kind", "states"]),
        Kind::Message => fields.only(&[
            "do", "channel", "count", "kind", "data", "format", "sub", "bytes",
        ]),
    }
}

/// Refuses a key that no item of a feed has whose channel is of this kind.
pub fn only_item(kind: Kind, fields: Fields<'_>) -> Result<(), ScriptFault>
    ensures { IfOk result (λ _. HasOnly (item_keys kind) (table_view fields.entry.table.now)) }
{
    match kind {
        Kind::Uart => fields.only(&["count", "parity", "sub", "bytes"]),
        Kind::Bus1553 => fields.only(&["count", "status", "gap", "words"]),
        Kind::Arinc => fields.only(&["count", "bus", "format", "parity", "high", "data"]),
        Kind::Discrete => fields.only(&["count", "states"]),
        Kind::Message => fields.only(&["count", "data", "format", "sub", "bytes"]),
    }
}

/// The kind that the step names, or else that of its channel.
fn offered_kind(
    channels: &[ChannelSpec],
    channel: u16,
    fields: Fields<'_>,
) -> Result<Kind, ScriptFault>
    ensures { IfOk result (λ kind. offered_word channels.now channel (table_view fields.entry.table.now) ≡ Some (kind_word kind)) }
{
    if fields.has("kind") {
        return kind_of(fields);
    }
    match spec_of(channels, channel) {
        Some(spec) => Ok(spec.kind),
        None => Err(fields.fault(Wrong::NoChannel { channel })),
    }
}

/// The settings of a channel.
pub fn spec_of(channels: &[ChannelSpec], channel: u16) -> Option<ChannelSpec>
    ensures { result ≡ find (λ spec. spec.id == channel) channels.now }
{
    channels.iter().copied().find(|spec| spec.id == channel)
}

/// The message of this kind that the table's keys give: of one that is absent the value is false, 0 or empty.
pub fn message_of(kind: Kind, fields: Fields<'_>) -> Result<Message, ScriptFault>
    ensures { IfOk result (λ message. AreValues kind (table_view fields.entry.table.now) message) }
{
    match kind {
        Kind::Uart => uart_of(fields),
        Kind::Bus1553 => bus_of(fields),
        Kind::Arinc => arinc_of(fields),
        Kind::Discrete => discrete_of(fields),
        Kind::Message => bytes_of(fields),
    }
}

fn uart_of(fields: Fields<'_>) -> Result<Message, ScriptFault>
    ensures { IfOk result (λ message. AreValues kinds.Uart (table_view fields.entry.table.now) message) }
{
    let parity = fields.truth_or_false("parity")?;
    let sub = fields.short_or_zero("sub")?;
    let bytes = Bytes::of(fields.bytes_or_none("bytes")?);
    Ok(Message::Uart(UartMessage { parity, sub, bytes }))
}

/// A message of a MIL-STD-1553 bus.
fn bus_of(fields: Fields<'_>) -> Result<Message, ScriptFault>
    ensures { IfOk result (λ message. AreValues kinds.Bus1553 (table_view fields.entry.table.now) message) }
{
    let status = fields.short_or_zero("status")?;
    let gap = fields.short_or_zero("gap")?;
    let words = Items::of(fields.words_or_none("words")?);
    Ok(Message::Bus1553(BusMessage { status, gap, words }))
}

/// A word of an ARINC 429 bus.
fn arinc_of(fields: Fields<'_>) -> Result<Message, ScriptFault>
    ensures { IfOk result (λ message. AreValues kinds.Arinc (table_view fields.entry.table.now) message) }
{
    Ok(Message::Arinc(ArincMessage {
        bus: fields.byte_or_zero("bus")?,
        format: fields.truth_or_false("format")?,
        parity: fields.truth_or_false("parity")?,
        high: fields.truth_or_false("high")?,
        word: fields.long_or_zero("data")?,
    }))
}

fn discrete_of(fields: Fields<'_>) -> Result<Message, ScriptFault>
    ensures { IfOk result (λ message. AreValues kinds.Discrete (table_view fields.entry.table.now) message) }
{
    let states = fields.long_or_zero("states")?;
    Ok(Message::Discrete(DiscreteMessage { states }))
}

/// A message of a message channel.
fn bytes_of(fields: Fields<'_>) -> Result<Message, ScriptFault>
    ensures { IfOk result (λ message. AreValues kinds.Message (table_view fields.entry.table.now) message) }
{
    let data_error = fields.truth_or_false("data")?;
    let format = fields.truth_or_false("format")?;
    let sub = fields.short_or_zero("sub")?;
    let bytes = Bytes::of(fields.bytes_or_none("bytes")?);
    Ok(Message::Message(DataMessage {
        data_error,
        format,
        sub,
        bytes,
    }))
}
