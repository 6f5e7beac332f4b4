//! What a script's text is, before a recorder is opened by it.

ghost use Rattle.std.specs.Prelude.{◌≡◌, ◌⊎◌, Option, Some, None};
ghost use Rattle.r10_body.specs.Statuses.{memory_status, script_status};
ghost use Rattle.r10_calls.specs.Checking.{TellsFault, TellsSettings, faulty_out, script_out};

use crate::copies::copy_front;
use r10_body::status::{OUT_OF_MEMORY, SCRIPT};
use r10_machine::Settings;
use r10_script::{Script, read_script};
use r10_text::ScriptFault;
use std::alloc::Global;

/// What a script says of its medium, or where it is wrong.
#[repr(C)]
#[derive(Clone, Copy)]
pub struct ScriptOut {
    /// how many blocks its medium has
    pub blocks: usize,
    /// how many of them are reserved for the directory
    pub directory: usize,
    /// how many channels it has
    pub channels: usize,
    /// the line that is wrong, from 1; 0 where none is, or it is not known
    pub line: usize,
    /// how many bytes the text has that says what is wrong
    pub length: usize,
}

fn script_out(settings: &Settings) -> ScriptOut
    ensures { result ≡ script_out settings.now }
{
    ScriptOut {
        blocks: settings.blocks(),
        directory: settings.directory(),
        channels: settings.channels().len(),
        line: 0,
        length: 0,
    }
}

fn faulty_out(line: Option<usize>, length: usize) -> ScriptOut
    ensures { result ≡ faulty_out line length }
{
    ScriptOut {
        blocks: 0,
        directory: 0,
        channels: 0,
        line: match line {
            Some(line) => line,
            None => 0,
        },
        length,
    }
}

/// Puts what is wrong, of its text what fits: 40, or 30 where that says nothing of the script.
fn put_fault(alloc: Global, fault: &ScriptFault, out: &mut ScriptOut, text: &mut [u8]) -> u32
    ensures refused { result ≡ script_status → TellsFault out.new text.old text.new }
    ensures memory { result ≡ memory_status → (out.new ≡ out.old) × (text.new ≡ text.old) }
    ensures numbers { (result ≡ memory_status) ⊎ (result ≡ script_status) }
{
    let ScriptFault::Wrong { spot, .. } = fault else {
        return OUT_OF_MEMORY;
    };
    let Ok(said) = format!(in alloc; "{fault}") else {
        return OUT_OF_MEMORY;
    };
    *out = faulty_out(spot.line, said.len());
    copy_front(said.as_bytes(), text);
    SCRIPT
}

/// What the text of a script says of its medium: 0, or 30, or 40 where it can't be taken, and then what is wrong with it.
pub fn check_script(alloc: Global, script: &[u8], out: &mut ScriptOut, text: &mut [u8]) -> u32
    ensures taken { result ≡ 0 → TellsSettings script.now out.new × (text.new ≡ text.old) }
    ensures refused { result ≡ script_status → TellsFault out.new text.old text.new }
    ensures memory { result ≡ memory_status → (out.new ≡ out.old) × (text.new ≡ text.old) }
    ensures numbers { (result ≡ 0) ⊎ (result ≡ memory_status) ⊎ (result ≡ script_status) }
{
    match read_script(alloc, script) {
        Ok(Script { settings, .. }) => {
            *out = script_out(&settings);
            0
        }
        Err(fault) => put_fault(alloc, &fault, out, text),
    }
}
