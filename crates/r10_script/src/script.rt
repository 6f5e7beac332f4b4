//! Scripts.

ghost use Rattle.std.specs.Prelude.{◌≡◌, Some, IfOk, IsUtf8};
ghost use Rattle.toml.specs.Data.{Members};
ghost use Rattle.toml.specs.Parse.{parse_document};
ghost use Rattle.toml.specs.View.{table_view};
ghost use Rattle.r10_script.specs.Keys.{HasOnly};
ghost use Rattle.r10_script.specs.Script.{AreScriptSettings, AreSteps, script_keys};

use crate::settings::settings_of;
use crate::step::event_of;
use crate::table::Fields;
use r10_body::ChannelSpec;
use r10_machine::{Event, Settings};
use r10_text::{Place, ScriptFault, Spot, Wrong};
use std::alloc::{AllocError, Global};

/// What a script asks for: a recorder of these settings, and these events in turn.
#[derive(Drop)]
pub struct Script {
    pub settings: Settings,
    pub events: Vec<Event>,
}

/// The script that the text spells, in UTF-8: the settings, the channels and the steps under their keys.
pub fn read_script(alloc: Global, text: &[u8]) -> Result<Script, ScriptFault>
    ensures text { IfOk result (λ _. IsUtf8 text.now) }
    ensures script { IfOk result (λ script. (table : Members) × (parse_document text.now ≡ Some table) × HasOnly script_keys table
        × AreScriptSettings table script.settings × AreSteps script.settings.channels table script.events.items) }
{
    match script_of(alloc, text) {
        Ok(script) => Ok(script),
        Err(fault) => Err(fault.with_line(text)),
    }
}

/// The script that the text spells. A fault after the text's form names no line.
fn script_of(alloc: Global, text: &[u8]) -> Result<Script, ScriptFault>
    ensures text { IfOk result (λ _. IsUtf8 text.now) }
    ensures script { IfOk result (λ script. (table : Members) × (parse_document text.now ≡ Some table) × HasOnly script_keys table
        × AreScriptSettings table script.settings × AreSteps script.settings.channels table script.events.items) }
{
    let table = match toml::table_from_slice(alloc, text) {
        Ok(table) => table,
        Err(error) => return Err(toml_fault(alloc, text, &error)),
    };
    let top = Fields::new(alloc, &table, Place::Top);
    top.only(&[
        "blocks",
        "directory",
        "volume",
        "nodes",
        "time",
        "event",
        "channel",
        "step",
    ])?;
    let settings = settings_of(alloc, top)?;
    let events = events_of(alloc, settings.channels(), top)?;
    Ok(Script { settings, events })
}

fn events_of(
    alloc: Global,
    channels: &[ChannelSpec],
    top: Fields<'_>,
) -> Result<Vec<Event>, ScriptFault>
    ensures { IfOk result (λ events. AreSteps channels.now (table_view top.entry.table.now) events.items) }
{
    let mut events = Vec::new(alloc);
    let mut number = 0usize;
    for value in top.tables("step")? {
        number = number.saturating_add(1);
        let fields = top.table_of(value, "step", Place::Step(number))?;
        events.push(event_of(channels, fields)?)?;
    }
    Ok(events)
}

/// The fault of a text that is not TOML.
pub fn toml_fault(alloc: Global, text: &[u8], error: &toml::de::Error) -> ScriptFault {
    let Some(span) = error.span() else {
        return ScriptFault::OutOfMemory(AllocError);
    };
    let mut line: usize = 1;
    for byte in &text[..span.start.min(text.len())] {
        if *byte == b'\n' {
            line = line.saturating_add(1);
        }
    }
    let line = Some(line);
    let place = Place::Text;
    match String::from_str(alloc, error.message()) {
        Ok(message) => ScriptFault::Wrong {
            spot: Spot { line, place },
            wrong: Wrong::Toml { message },
        },
        Err(error) => ScriptFault::OutOfMemory(error),
    }
}
