// The entry of a file.
ghost use Rattle.std.specs.Prelude.{◌≡◌, ◌≤◌, length, true};
ghost use Rattle.r10_dirblock.specs.Texts.{stripped, time_text};
ghost use Rattle.r10_dirblock.specs.Block.{begun_entry, blank, has_room_for_size, is_closed, sized};

use crate::text::{DASHES, date_digits, pad, strip, time_digits};
use r10_count::Civil;

/// A file as a directory block lists it (IRIG 106-17, chapter 10): each field as it stands, so that
/// an entry of another recorder is written again byte for byte.
#[derive(Clone, Copy, PartialEq, Eq)]
pub struct Entry {
    /// padded with zero bytes; another recorder may pad with spaces
    pub name: [u8; 56],
    /// the number of the file's first block
    pub first_block: u64,
    pub block_count: u64,
    /// in bytes
    pub size: u64,
    /// DDMMYYYY
    pub create_date: [u8; 8],
    /// HHMMSSss
    pub create_time: [u8; 8],
    pub time_type: u8,
    pub reserved: [u8; 7],
    /// HHMMSSss, or eight dashes where the file is not closed (this recorder's own choice)
    pub close_time: [u8; 8],
}

impl Entry {
    /// The entry of a file that has just been begun: without blocks, and not closed.
    pub fn of_new_file(name: &[u8], first_block: u64, created: Civil) -> Entry
        requires { length name.now ≤ 56 }
        ensures { result ≡ begun_entry name.now first_block created }
    {
        Entry {
            name: pad(name),
            first_block,
            block_count: 0,
            size: 0,
            create_date: date_digits(created),
            create_time: time_digits(created),
            time_type: 0,
            reserved: [0; 7],
            close_time: DASHES,
        }
    }

    /// The entry at another size in bytes, with as many blocks as the size needs.
    pub fn with_size(self, size: u64) -> Entry
        ensures fields { result ≡ sized size self }
        ensures room { has_room_for_size result ≡ true }
    {
        Entry {
            block_count: size.div_ceil(512),
            size,
            ..self
        }
    }

    /// The entry of the file when it is closed at this time.
    pub fn closed_at(self, time: Civil) -> Entry
        ensures fields { result ≡ record self { close_time = time_text time } }
        ensures closed { is_closed result ≡ true }
    {
        Entry {
            close_time: time_digits(time),
            ..self
        }
    }

    /// The name, without the padding after it.
    pub fn stripped_name(&self) -> &[u8]
        ensures { result.now ≡ stripped self.now.name }
    {
        strip(&self.name)
    }

    /// Whether the file is closed.
    pub fn is_closed(&self) -> bool
        ensures { result ≡ is_closed self.now }
    {
        self.close_time != DASHES
    }

    /// Whether the file's blocks have room for its size.
    pub fn has_room(&self) -> bool
        ensures { result ≡ has_room_for_size self.now }
    {
        u128::from(self.size) <= 512 * u128::from(self.block_count)
    }
}

/// An entry of zero bytes.
impl Default for Entry {
    ghost is_default = { λ e. e ≡ blank };

    fn default() -> Entry {
        Entry {
            name: [0; 56],
            first_block: 0,
            block_count: 0,
            size: 0,
            create_date: [0; 8],
            create_time: [0; 8],
            time_type: 0,
            reserved: [0; 7],
            close_time: [0; 8],
        }
    }
}
