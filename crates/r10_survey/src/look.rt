//! What stands first in bytes.

ghost use Rattle.std.specs.Prelude.{◌≡◌, ◌↔◌, IsTrue};
ghost use Rattle.r10_survey.specs.Looks.{Sees};

use crate::entries::count_in;
use r10_body::{FileFault, is_opaque};
use r10_packet::{DataSum, Header, Packet, PacketFault};
use r10_packet_rules::is_foreign_body;

/// A packet that stands first in bytes, as it is counted.
#[derive(Clone, Copy)]
pub(crate) struct SeenPacket {
    pub(crate) header: Header,
    /// How many bytes it has.
    pub(crate) length: usize,
    /// How many entries it has.
    pub(crate) entries: usize,
    /// It is separated from the next one, and its body is not read.
    pub(crate) opaque: bool,
    /// Its data checksum has room and is right.
    pub(crate) right: bool,
}

/// What stands first in bytes.
#[derive(Clone, Copy)]
pub(crate) enum First {
    Packet(SeenPacket),
    /// No packet: this is its fault.
    Stray(FileFault),
    /// Maybe a packet: more bytes are wanted to tell.
    More,
}

/// What stands first in bytes, after which others may come unless they are the last ones.
pub(crate) fn look(bytes: &[u8], last: bool) -> First
    ensures { Sees bytes.now last result }
{
    let (view, length) = match Packet::read(bytes) {
        Ok(read) => read,
        Err(PacketFault::Truncated) => {
            if last {
                return First::Stray(FileFault::Truncated);
            }
            return First::More;
        }
        Err(PacketFault::Sync) => return First::Stray(FileFault::Sync),
        Err(PacketFault::HeaderSum) => return First::Stray(FileFault::HeaderSum),
        Err(PacketFault::Length) => return First::Stray(FileFault::Length),
    };
    let header = view.header;
    let right = is_right(view.data_sum);
    if is_opaque(&header, view.body) {
        return First::Packet(SeenPacket {
            header,
            length,
            entries: 0,
            opaque: true,
            right,
        });
    }
    if !right {
        return First::Stray(FileFault::DataSum);
    }
    if !is_foreign_body(header.data_type, view.body) {
        return First::Stray(FileFault::Body);
    }
    let entries = count_in(header.data_type, view.body);
    First::Packet(SeenPacket {
        header,
        length,
        entries,
        opaque: false,
        right,
    })
}

/// Whether a data checksum has room and is right.
fn is_right(sum: DataSum) -> bool
    ensures { IsTrue result ↔ (sum ≡ DataSum.Right) }
{
    match sum {
        DataSum::Right => true,
        DataSum::Wrong | DataSum::NoRoom => false,
    }
}
