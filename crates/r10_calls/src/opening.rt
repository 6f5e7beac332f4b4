//! A medium is formatted, and a recorder is opened over it, with the settings of a script.

ghost use Rattle.std.specs.Prelude.{◌≡◌, ◌⊎◌, IfErr, IfOk, Some, length, map};
ghost use Rattle.r10_body.specs.Statuses.{blocks_status, medium_status, memory_status, script_status};
ghost use Rattle.r10_medium.specs.Disk.{Rose};
ghost use Rattle.r10_calls.specs.Accounts.{not_yet};
ghost use Rattle.r10_calls.specs.Faults.{no_fault};
ghost use Rattle.r10_machine.specs.declared.reply.Reply.TheVariants as replies;
ghost use Rattle.r10_calls.specs.Opening.{FormatsByScript, FormatsOver, HasOtherBlocks, IsSettings, OpensRecorder};

use crate::accounts::{Accepted, none_accepted};
use crate::desk::Desk;
use crate::fault::FaultOut;
use crate::place::WorldPlace;
use r10_body::status::{BLOCKS, MEDIUM, OUT_OF_MEMORY, SCRIPT};
use r10_machine::{Reply, Settings};
use r10_medium::BlockMedium;
use r10_region::{Bound, NamesMedium, SteadyMedium};
use r10_script::{Script, read_script};
use r10_text::ScriptFault;
use r10_world::World;
use std::alloc::Global;
use std::marker::Brand;

/// The settings of a script of so many blocks, or 30, 40 where it is none, or 41 where it has another number of blocks. Its steps
/// are not done.
pub(crate) fn settings_of(alloc: Global, script: &[u8], blocks: usize) -> Result<Settings, u32>
    ensures settings { IfOk result (λ s. IsSettings script.now s × (blocks ≡ s.blocks)) }
    ensures refused { IfErr result (λ n. (n ≡ memory_status) ⊎ (n ≡ script_status) ⊎ (n ≡ blocks_status)) }
    ensures other { IfErr result (λ n. n ≡ blocks_status → HasOtherBlocks script.now blocks) }
{
    match read_script(alloc, script) {
        Ok(Script { settings, .. }) => {
            if settings.blocks() == blocks {
                Ok(settings)
            } else {
                Err(BLOCKS)
            }
        }
        Err(ScriptFault::OutOfMemory(_)) => Err(OUT_OF_MEMORY),
        Err(_) => Err(SCRIPT),
    }
}

/// Writes the directory of a medium without files, as the settings of this script say.
fn format_one<M: BlockMedium>(alloc: Global, medium: &mut M, script: &[u8]) -> u32
    ensures formats { result ≡ 0 → FormatsByScript script.now (M.disk medium.new) }
    ensures over { result ≡ 0 → FormatsOver script.now (M.disk medium.old).blocks (M.disk medium.new) }
    ensures untouched { (result ≡ memory_status) ⊎ (result ≡ script_status) ⊎ (result ≡ blocks_status) → medium.new ≡ medium.old }
    ensures failed { result ≡ medium_status → Rose (M.disk medium.old).failures (M.disk medium.new).failures }
    ensures other { result ≡ blocks_status → HasOtherBlocks script.now (length (M.disk medium.old).blocks) }
    ensures numbers { (result ≡ 0) ⊎ (result ≡ medium_status) ⊎ (result ≡ memory_status) ⊎ (result ≡ script_status)
        ⊎ (result ≡ blocks_status) }
{
    match settings_of(alloc, script, medium.blocks()) {
        Ok(settings) => match r10_volume::format(medium, &settings) {
            Ok(()) => 0,
            Err(_) => MEDIUM,
        },
        Err(number) => number,
    }
}

/// The same of the medium that is named.
fn format_bound<M: SteadyMedium, N: NamesMedium>(
    alloc: Global,
    medium: M,
    script: &[u8],
) -> (u32, M)
    requires { Some (M.identity medium) ≡ N.medium }
    ensures formats { result.0 ≡ 0 → FormatsByScript script.now (M.disk result.1) }
    ensures over { result.0 ≡ 0 → FormatsOver script.now (M.disk medium).blocks (M.disk result.1) }
    ensures untouched { (result.0 ≡ memory_status) ⊎ (result.0 ≡ script_status) ⊎ (result.0 ≡ blocks_status) → result.1 ≡ medium }
    ensures failed { result.0 ≡ medium_status → Rose (M.disk medium).failures (M.disk result.1).failures }
    ensures other { result.0 ≡ blocks_status → HasOtherBlocks script.now (length (M.disk medium).blocks) }
    ensures numbers { (result.0 ≡ 0) ⊎ (result.0 ≡ medium_status) ⊎ (result.0 ≡ memory_status) ⊎ (result.0 ≡ script_status)
        ⊎ (result.0 ≡ blocks_status) }
    ensures named { Some (M.identity result.1) ≡ N.medium }
{
    let mut bound = Bound::<M, N>::new(medium);
    let number = format_one(alloc, &mut bound, script);
    (number, bound.into_medium())
}

/// Writes the directory of a medium without files, as the settings of this script say: 0, or 28 where the medium failed, 30, 40
/// where the script can't be taken, or 41 where the medium has another number of blocks. The medium comes back, and is the one that
/// it was.
pub fn format<M: SteadyMedium>(alloc: Global, medium: M, script: &[u8]) -> (u32, M)
    ensures formats { result.0 ≡ 0 → FormatsByScript script.now (M.disk result.1) }
    ensures over { result.0 ≡ 0 → FormatsOver script.now (M.disk medium).blocks (M.disk result.1) }
    ensures untouched { (result.0 ≡ memory_status) ⊎ (result.0 ≡ script_status) ⊎ (result.0 ≡ blocks_status) → result.1 ≡ medium }
    ensures failed { result.0 ≡ medium_status → Rose (M.disk medium).failures (M.disk result.1).failures }
    ensures other { result.0 ≡ blocks_status → HasOtherBlocks script.now (length (M.disk medium).blocks) }
    ensures numbers { (result.0 ≡ 0) ⊎ (result.0 ≡ medium_status) ⊎ (result.0 ≡ memory_status) ⊎ (result.0 ≡ script_status)
        ⊎ (result.0 ≡ blocks_status) }
    ensures stays { M.identity result.1 ≡ M.identity medium }
{
    format_bound::<M, Brand>(alloc, medium, script)
}

/// A recorder with the settings of this script over the medium, not mounted, and without readers; and of each of its channels, that
/// no message was accepted. Its number is 30, 40 where the script can't be taken, or 41 where the medium has another number of
/// blocks.
pub fn open<M: SteadyMedium + Drop>(
    alloc: Global,
    medium: M,
    script: &[u8],
) -> Result<(Desk<M>, Vec<Accepted>), u32>
    ensures opens { IfOk result (λ r. OpensRecorder M.disk script.now medium r.0.world) }
    ensures accepted { IfOk result (λ r. r.1.items ≡ map not_yet r.0.world.recorder.kept.config.channels) }
    ensures empty { IfOk result (λ r. (r.0.fault ≡ no_fault) × (r.0.hand ≡ replies.Done)) }
    ensures refused { IfErr result (λ n. (n ≡ memory_status) ⊎ (n ≡ script_status) ⊎ (n ≡ blocks_status)) }
    ensures other { IfErr result (λ n. n ≡ blocks_status → HasOtherBlocks script.now (length (M.disk medium).blocks)) }
{
    let settings = settings_of(alloc, script, medium.blocks())?;
    let Ok(accepted) = none_accepted(alloc, settings.channels()) else {
        return Err(OUT_OF_MEMORY);
    };
    match World::new(alloc, settings, medium) {
        Ok(world) => {
            let desk = Desk {
                alloc,
                world: WorldPlace::new(world),
                fault: FaultOut::none(),
                hand: Reply::Done,
            };
            Ok((desk, accepted))
        }
        Err(_) => Err(OUT_OF_MEMORY),
    }
}
