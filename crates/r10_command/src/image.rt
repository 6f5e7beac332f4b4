//! The command `sim --image`: runs the steps of a script, and writes the image that they leave.

ghost use Rattle.std.specs.Prelude.{◌≡◌, [], IfErr, IfSome, OnOk};
ghost use Rattle.std.specs.Io.Buffered.{writer_buffer, writer_contents};
ghost use Rattle.r10_command.specs.Sim.{WritesLeft};
ghost use Rattle.r10_command.specs.Status.{fault_status};

use crate::fault::Fault;
use crate::play::{run_on_fresh, script_of};
use r10_images::{read_whole, write_image};
use r10_script::Script;
use std::alloc::Global;
use std::io;
use std::io::{BufWriter, Read, Write};

/// Reads a script, runs its steps on a fresh medium in memory, and writes the medium's image, block by block. The writer's buffer
/// is flushed. Of a wrong script nothing is written.
pub fn sim_image<R: Read, W: Write + Drop>(
    alloc: Global,
    reader: &mut R,
    writer: &mut BufWriter<W>,
) -> Result<(), Fault>
    ensures image { OnOk result (IfSome (R.remaining reader.old)
        (λ text. WritesLeft text (writer_contents W.contents writer.old) (writer_contents W.contents writer.new))) }
    ensures sent { OnOk result (writer_buffer writer.new ≡ []) }
    ensures quiet { IfErr result (λ fault. fault_status fault ≡ 2 → writer.new ≡ writer.old) }
{
    let text = read_whole(alloc, reader)?;
    let Script { settings, events } = script_of(alloc, text.as_slice())?;
    let world = run_on_fresh(alloc, settings, events, &mut io::sink())?;
    let mut medium = world.into_medium();
    write_image(&mut medium, writer)?;
    Ok(())
}
