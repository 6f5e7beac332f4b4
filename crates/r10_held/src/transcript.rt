//! What a reader wrote down.

ghost use Rattle.std.specs.Prelude.{◌≡◌, [], IfOk};

use r10_body::Entry;
use r10_count::{Count, Items};
use r10_cursor::Cursor;
use std::alloc::{AllocError, Global};

/// What an advance gave: of the packets of a file from one place up to another, those of its index not counted, the entries that
/// were wanted, in the order of a replay.
#[derive(Drop)]
pub struct Instalment {
    pub from: usize,
    pub to: usize,
    pub entries: Items<Entry>,
}

/// What was read of a file, of some channels, or all where there are none, and a range of counts.
#[derive(Drop)]
pub struct Transcript {
    /// The file's number.
    pub file: usize,
    pub channels: Items<u16>,
    /// The first count that was wanted.
    pub first: Count,
    /// The last count that was wanted.
    pub last: Count,
    pub instalments: Vec<Instalment>,
}

impl Transcript {
    /// A transcript of what a cursor will give, without an instalment yet.
    pub fn of(alloc: Global, cursor: &Cursor) -> Result<Transcript, AllocError>
        ensures file { IfOk result (λ t. t.file ≡ cursor.now.file) }
        ensures wanted { IfOk result (λ t. (t.channels ≡ cursor.now.reading.channels) × (t.first ≡ cursor.now.reading.from)
            × (t.last ≡ cursor.now.reading.to)) }
        ensures empty { IfOk result (λ t. t.instalments.items ≡ []) }
    {
        let channels = Items::of(Vec::from_slice(alloc, cursor.channels())?);
        let (first, last) = cursor.range();
        Ok(Transcript {
            file: cursor.file(),
            channels,
            first,
            last,
            instalments: Vec::new(alloc),
        })
    }
}
