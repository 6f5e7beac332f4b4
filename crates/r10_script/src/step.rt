//! The steps of a script.

ghost use Rattle.std.specs.Prelude.{◌≡◌, pos, Some, codes, IfOk, IfSome, List, [], ◌∷◌};
ghost use Rattle.toml.specs.Data.{Members};
ghost use Rattle.toml.specs.View.{table_view};
ghost use Rattle.r10_body.specs.declared.spec.ChannelSpec.{ChannelSpec as ChannelSpecValue};
ghost use Rattle.r10_script.specs.Keys.{integer_at, text_at, HasOnly};
ghost use Rattle.r10_script.specs.Steps.{IsBareStep, IsCivilText, IsStepTable};

use crate::offer::offered_of;
use crate::table::Fields;
use r10_body::ChannelSpec;
use r10_count::{Items, Parts};
use r10_machine::Event;
use r10_text::{ScriptFault, parts_of};

const CIVIL: &str = "a text of the form YYYY-MM-DD hh:mm:ss.cc";

/// The words of the steps, as a fault says them.
const STEPS: &str =
    "one of: mount, dismount, tick, start, offer, lose, pump, event, commit, stop, seal, erase, files, status, cursor, advance, \
    next, close, find, count_at";

/// The event that a step's table spells.
pub fn event_of(channels: &[ChannelSpec], fields: Fields<'_>) -> Result<Event, ScriptFault>
    ensures { IfOk result (λ event. IsStepTable channels.now (table_view fields.entry.table.now) event) }
{
    let word = fields.text("do", STEPS)?;
    if let Some(event) = bare_of(word) {
        fields.only(&["do"])?;
        return Ok(event);
    }
    match word {
        "tick" => tick_of(fields),
        "start" => start_of(fields),
        "offer" => offer_of(channels, fields),
        "lose" => lose_of(fields),
        "pump" => pump_of(fields),
        "event" => recorded_of(fields),
        "cursor" => cursor_of(fields),
        "advance" => {
            let id = id_of(fields)?;
            Ok(Event::Advance { id })
        }
        "next" => {
            let id = id_of(fields)?;
            Ok(Event::Next { id })
        }
        "close" => {
            let id = id_of(fields)?;
            Ok(Event::Close { id })
        }
        "find" => find_of(fields),
        "count_at" => count_at_of(fields),
        _ => Err(fields.fault_at("do", STEPS)),
    }
}

/// The event that this word alone spells.
fn bare_of(word: &str) -> Option<Event>
    ensures { IfSome result (λ event. (channels : List ChannelSpecValue) → (table : Members) → IsBareStep word.now table
        → IsStepTable channels table event) }
{
    match word {
        "mount" => Some(Event::Mount),
        "dismount" => Some(Event::Dismount),
        "commit" => Some(Event::Commit),
        "stop" => Some(Event::Stop),
        "seal" => Some(Event::Seal),
        "erase" => Some(Event::Erase),
        "files" => Some(Event::Files),
        "status" => Some(Event::Status),
        _ => None,
    }
}

fn tick_of(fields: Fields<'_>) -> Result<Event, ScriptFault>
    ensures { IfOk result (λ event. (channels : List ChannelSpecValue) → text_at (table_view fields.entry.table.now) (codes "do")
        ≡ Some (codes "tick") → IsStepTable channels (table_view fields.entry.table.now) event) }
{
    fields.only(&["do", "count", "civil"])?;
    let count = fields.count("count")?;
    let parts = civil_of(fields)?;
    Ok(Event::Tick { count, parts })
}

/// A civil time. Whether there is such a day or time is not asked.
fn civil_of(fields: Fields<'_>) -> Result<Parts, ScriptFault>
    ensures { IfOk result (λ parts. IsCivilText (table_view fields.entry.table.now) parts) }
{
    match parts_of(fields.text("civil", CIVIL)?.as_bytes()) {
        Some(parts) => Ok(parts),
        None => Err(fields.fault_at("civil", CIVIL)),
    }
}

fn start_of(fields: Fields<'_>) -> Result<Event, ScriptFault>
    ensures { IfOk result (λ event. (channels : List ChannelSpecValue) → text_at (table_view fields.entry.table.now) (codes "do")
        ≡ Some (codes "start") → IsStepTable channels (table_view fields.entry.table.now) event) }
{
    fields.only(&["do", "name", "setup"])?;
    let name = fields.text_bytes("name", "a text")?;
    let setup = fields.bytes("setup")?;
    Ok(Event::Start {
        name: Items::of(name),
        setup: Items::of(setup),
    })
}

fn offer_of(channels: &[ChannelSpec], fields: Fields<'_>) -> Result<Event, ScriptFault>
    ensures { IfOk result (λ event. text_at (table_view fields.entry.table.now) (codes "do") ≡ Some (codes "offer")
        → IsStepTable channels.now (table_view fields.entry.table.now) event) }
{
    let channel = fields.short("channel")?;
    let count = fields.count("count")?;
    let message = offered_of(channels, channel, fields)?;
    Ok(Event::Offer {
        channel,
        count,
        message,
    })
}

fn lose_of(fields: Fields<'_>) -> Result<Event, ScriptFault>
    ensures { IfOk result (λ event. (channels : List ChannelSpecValue) → text_at (table_view fields.entry.table.now) (codes "do")
        ≡ Some (codes "lose") → IsStepTable channels (table_view fields.entry.table.now) event) }
{
    fields.only(&["do", "channel", "count"])?;
    let channel = fields.short("channel")?;
    let lost = fields.count("count")?;
    Ok(Event::Lose { channel, lost })
}

fn pump_of(fields: Fields<'_>) -> Result<Event, ScriptFault>
    ensures { IfOk result (λ event. (channels : List ChannelSpecValue) → text_at (table_view fields.entry.table.now) (codes "do")
        ≡ Some (codes "pump") → IsStepTable channels (table_view fields.entry.table.now) event) }
{
    fields.only(&["do", "channel", "k"])?;
    let channel = fields.short("channel")?;
    let most = fields.size("k")?;
    Ok(Event::Pump { channel, most })
}

/// A recording event.
fn recorded_of(fields: Fields<'_>) -> Result<Event, ScriptFault>
    ensures { IfOk result (λ event. (channels : List ChannelSpecValue) → text_at (table_view fields.entry.table.now) (codes "do")
        ≡ Some (codes "event") → IsStepTable channels (table_view fields.entry.table.now) event) }
{
    fields.only(&["do", "number", "count"])?;
    let number = fields.short("number")?;
    let count = fields.count("count")?;
    Ok(Event::Event { number, count })
}

fn cursor_of(fields: Fields<'_>) -> Result<Event, ScriptFault>
    ensures { IfOk result (λ event. (channels : List ChannelSpecValue) → text_at (table_view fields.entry.table.now) (codes "do")
        ≡ Some (codes "cursor") → IsStepTable channels (table_view fields.entry.table.now) event) }
{
    fields.only(&["do", "file", "channels", "from", "to"])?;
    let file = fields.size("file")?;
    let channels = Items::of(fields.shorts("channels")?);
    let from = fields.count("from")?;
    let to = fields.count("to")?;
    Ok(Event::Cursor {
        file,
        channels,
        from,
        to,
    })
}

/// The number of a cursor, the one key of a step.
fn id_of(fields: Fields<'_>) -> Result<usize, ScriptFault>
    ensures { IfOk result (λ id. (integer_at (table_view fields.entry.table.now) (codes "id") ≡ Some (pos id))
        × HasOnly (codes "do" ∷ codes "id" ∷ []) (table_view fields.entry.table.now)) }
{
    fields.only(&["do", "id"])?;
    fields.size("id")
}

fn find_of(fields: Fields<'_>) -> Result<Event, ScriptFault>
    ensures { IfOk result (λ event. (channels : List ChannelSpecValue) → text_at (table_view fields.entry.table.now) (codes "do")
        ≡ Some (codes "find") → IsStepTable channels (table_view fields.entry.table.now) event) }
{
    fields.only(&["do", "file", "channel", "count"])?;
    let file = fields.size("file")?;
    let channel = fields.short("channel")?;
    let count = fields.count("count")?;
    Ok(Event::Find {
        file,
        channel,
        count,
    })
}

fn count_at_of(fields: Fields<'_>) -> Result<Event, ScriptFault>
    ensures { IfOk result (λ event. (channels : List ChannelSpecValue) → text_at (table_view fields.entry.table.now) (codes "do")
        ≡ Some (codes "count_at") → IsStepTable channels (table_view fields.entry.table.now) event) }
{
    fields.only(&["do", "file", "civil"])?;
    let file = fields.size("file")?;
    let parts = civil_of(fields)?;
    Ok(Event::CountAt { file, parts })
}
