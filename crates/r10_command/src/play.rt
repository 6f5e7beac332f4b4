//! The command `sim`: runs the steps of a script.

ghost use Rattle.std.specs.Prelude.{◌≡◌, ◌<◌, ◌+◌, ◌^◌, [], length, IfErr, IfOk, IfSome, OnOk};
ghost use Rattle.std.specs.Io.Buffered.{writer_buffer, writer_contents};
ghost use Rattle.r10_machine.specs.Machine.{Machine, fresh};
ghost use Rattle.r10_medium.specs.MemoryDisk.{memory_disk};
ghost use Rattle.r10_world.specs.WorldSteps.{WorldStandsFor};
ghost use Rattle.r10_command.specs.Lines.{WritesLines, RunsAndWrites};
ghost use Rattle.r10_command.specs.Sim.{IsScript, PlaysScript, Simulates};
ghost use Rattle.r10_command.specs.Status.{fault_status};

use crate::fault::Fault;
use r10_body::Refusal;
use r10_images::read_whole;
use r10_machine::{Event, Reply, Settings, runs_join};
use r10_medium::{BlockMedium, Memory};
use r10_script::{Script, read_script};
use r10_text::reply_lines;
use r10_world::World;
use std::alloc::{AllocError, Global};
use std::io::{BufWriter, Read, Write};

/// Reads a script, runs its steps on a fresh medium in memory, and writes the lines of each reply. The writer's buffer is flushed.
/// Of a wrong script nothing is written.
pub fn sim<R: Read, W: Write + Drop>(
    alloc: Global,
    reader: &mut R,
    writer: &mut BufWriter<W>,
) -> Result<(), Fault>
    ensures simulates { OnOk result (IfSome (R.remaining reader.old)
        (λ text. Simulates text (writer_contents W.contents writer.old) (writer_contents W.contents writer.new))) }
    ensures sent { OnOk result (writer_buffer writer.new ≡ []) }
    ensures quiet { IfErr result (λ fault. fault_status fault ≡ 2 → writer.new ≡ writer.old) }
{
    let text = read_whole(alloc, reader)?;
    let Script { settings, events } = script_of(alloc, text.as_slice())?;
    let _ = run_script(alloc, settings, events, writer)?;
    match writer.flush() {
        Ok(()) => Ok(()),
        Err(error) => Err(Fault::Write(error)),
    }
}

/// The script that the text spells.
pub(crate) fn script_of(alloc: Global, text: &[u8]) -> Result<Script, Fault>
    ensures { IfOk result (λ script. IsScript text.now script.settings script.events.items) }
{
    match read_script(alloc, text) {
        Ok(script) => Ok(script),
        Err(fault) => Err(Fault::of_script(text, fault)),
    }
}

/// Runs the steps of a script on a fresh medium in memory, which never fails, writes the lines of each reply, and gives the medium
/// back. The writer is not flushed.
pub fn run_script<W: Write>(
    alloc: Global,
    settings: Settings,
    events: Vec<Event>,
    writer: &mut W,
) -> Result<Memory, Fault>
    ensures plays { IfOk result
        (λ medium. PlaysScript settings events.items (memory_disk medium).blocks (W.contents writer.old) (W.contents writer.new)) }
    ensures status { IfErr result (λ fault. fault_status fault ≡ 3) }
{
    let world = run_on_fresh(alloc, settings, events, writer)?;
    Ok(world.into_medium())
}

/// The recorder as the steps of a script leave it, on a fresh medium.
pub(crate) fn run_on_fresh<W: Write>(
    alloc: Global,
    settings: Settings,
    events: Vec<Event>,
    writer: &mut W,
) -> Result<World<Memory>, Fault>
    ensures plays { IfOk result (λ world. PlaysScript settings events.items (memory_disk world.recorder.medium).blocks
        (W.contents writer.old) (W.contents writer.new)) }
    ensures status { IfErr result (λ fault. fault_status fault ≡ 3) }
{
    let medium = Memory::new(alloc, settings.blocks())?;
    let mut world = fresh_world(alloc, settings, medium)?;
    run_steps(alloc, &mut world, events.as_slice(), writer)?;
    Ok(world)
}

/// A recorder of these settings and its readers, over the medium that it formats.
fn fresh_world<M: BlockMedium + Drop>(
    alloc: Global,
    settings: Settings,
    mut medium: M,
) -> Result<World<M>, Fault>
    requires { length (M.disk medium).blocks ≡ settings.blocks }
    ensures config { IfOk result (λ w. w.recorder.kept.config ≡ settings) }
    ensures stands { IfOk result (λ w. WorldStandsFor M.disk w (fresh settings.channels [] (M.disk w.recorder.medium).failures)) }
    ensures status { IfErr result (λ fault. fault_status fault ≡ 3) }
{
    match r10_volume::format(&mut medium, &settings) {
        Ok(()) => (),
        Err(Refusal::OutOfMemory) => return Err(Fault::Memory(AllocError)),
        Err(refusal) => return Err(Fault::Format(refusal)),
    }
    match World::new(alloc, settings, medium) {
        Ok(world) => Ok(world),
        Err(_) => Err(Fault::Memory(AllocError)),
    }
}

/// Runs the steps and writes the lines of each reply, numbered from 1. A run that ends early goes on after its last step.
fn run_steps<M: BlockMedium, W: Write>(
    alloc: Global,
    world: &mut World<M>,
    events: &[Event],
    writer: &mut W,
) -> Result<(), Fault>
    ensures runs { OnOk result ((m : Machine) → WorldStandsFor M.disk world.old m → RunsAndWrites M.disk
        world.old.recorder.kept.config m events.now world.new (W.contents writer.old) (W.contents writer.new)) }
    ensures config { OnOk result (world.new.recorder.kept.config ≡ world.old.recorder.kept.config) }
    ensures status { IfErr result (λ fault. fault_status fault ≡ 3) }
{
    runs_join();
    let mut replies = Vec::new(alloc);
    let mut done = 0;
    while done < events.len() {
        replies.clear();
        let count = r10_world::run(world, &events[done..], &mut replies)?;
        write_lines(alloc, done, replies.as_slice(), writer)?;
        done += count;
    }
    Ok(())
}

/// Writes the lines of the replies to the steps after the first `done` ones.
fn write_lines<W: Write>(
    alloc: Global,
    done: usize,
    replies: &[Reply],
    writer: &mut W,
) -> Result<(), Fault>
    requires { done + length replies.now < 2 ^ 64 }
    ensures lines { OnOk result (WritesLines (W.contents writer.old) (W.contents writer.new) done replies.now) }
    ensures status { IfErr result (λ fault. fault_status fault ≡ 3) }
{
    let mut number = done;
    for reply in replies {
        number += 1;
        let lines = reply_lines(alloc, number, reply)?;
        writer.write_all(lines.as_bytes()).map_err(Fault::Write)?;
    }
    Ok(())
}
