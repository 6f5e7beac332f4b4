//! A report, as lines.

use r10_survey::{ChannelCount, Report, Stretch};
use std::io;
use std::io::Write;

/// How many channels there may be.
const CHANNELS: u32 = 65_536;

/// Writes a line for each channel that has packets, for each stretch that is kept, for the file, and for the verdict; and answers
/// whether that is that the file is lenient.
pub(crate) fn write_report<W: Write>(writer: &mut W, report: &Report) -> io::Result<bool> {
    let mut some = false;
    for id in 0..CHANNELS {
        if let Some(count) = report.channel(id as u16) {
            some = true;
            write_channel(writer, id, &count)?;
        }
    }
    for stretch in report.stretches() {
        write_stretch(writer, stretch)?;
    }
    let number = report.stretch_number();
    writeln!(writer, "file bytes {} stretches {number}", report.bytes())?;
    write_verdict(writer, report, some)
}

/// What the packets of a channel come to.
fn write_channel<W: Write>(writer: &mut W, id: u32, count: &ChannelCount) -> io::Result<()> {
    let (data_type, other) = (count.data_type, count.other_types);
    write!(writer, "channel {id} type 0x{data_type:02x} other {other}")?;
    let (packets, bytes) = (count.packets, count.bytes);
    write!(writer, " packets {packets} bytes {bytes}")?;
    write!(writer, " entries {}", count.entries)?;
    let (opaque, sums) = (count.opaque, count.wrong_sums);
    write!(writer, " opaque {opaque} sums {sums}")?;
    let (losses, gaps) = (count.losses, count.gaps);
    write!(writer, " losses {losses} gaps {gaps}")?;
    let (first, last) = (count.first.get(), count.last.get());
    writeln!(writer, " first {first} last {last}")
}

/// A stretch of bytes that no packet has.
fn write_stretch<W: Write>(writer: &mut W, stretch: &Stretch) -> io::Result<()> {
    let (offset, length) = (stretch.offset, stretch.length);
    writeln!(writer, "stretch offset {offset} length {length}")
}

/// The verdict: a file without a packet is at fault where it begins, and one with a stretch where the first one begins.
fn write_verdict<W: Write>(writer: &mut W, report: &Report, some: bool) -> io::Result<bool> {
    match report.stretches().first() {
        Some(stretch) => {
            let (kind, offset) = (
                if some { "damaged, faulty" } else { "faulty" },
                stretch.offset,
            );
            writeln!(writer, "verdict {kind} at {offset}")?;
            Ok(false)
        }
        None => {
            if some {
                writeln!(writer, "verdict lenient")?;
            } else {
                writeln!(writer, "verdict faulty at 0")?;
            }
            Ok(some)
        }
    }
}
