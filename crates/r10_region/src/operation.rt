//! What a disk has to do.

ghost use Rattle.std.specs.Prelude.{◌≡◌, length};

/// One thing that a disk has to do.
#[derive(Drop)]
pub enum Operation {
    /// The block `block` holds these bytes from now on.
    Write { block: usize, bytes: [u8; 512] },
    /// What was written so far is synced.
    Sync,
}

/// A block has 512 bytes.
pub(crate) fn has_its_bytes(block: &[u8; 512])
    ensures { length block.now ≡ 512 }
{
    let _ = block;
}
