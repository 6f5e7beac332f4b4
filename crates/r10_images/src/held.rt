//! An image that was read.

ghost use Rattle.std.specs.Prelude.{◌≡◌};

use r10_medium::{BlockMedium, MediumFault};

/// An image that was read, as a medium that can't be written: each write fails, and changes nothing of it. A read never fails.
/// Bytes after the last whole block are no part of it.
#[derive(Drop)]
pub struct Image {
    bytes: Vec<u8>,
    failures: u64,
}

impl Image {
    ghost use Rattle.r10_images.specs.Image.{image_blocks};
    ghost use Rattle.r10_images.specs.ImageDisk.{image_disk};

    /// The medium whose blocks are these bytes, 512 a block.
    pub fn of(bytes: Vec<u8>) -> Image
        ensures blocks { (image_disk result).blocks ≡ image_blocks bytes.items }
        ensures failures { (image_disk result).failures ≡ 0 }
    {
        Image { bytes, failures: 0 }
    }
}

impl BlockMedium for Image {
    ghost use Rattle.std.specs.Prelude.{◌≡◌, ◌<◌, length, slice_set, IsErr, IsOk, OnOk};
    ghost use Rattle.r10_medium.specs.Disk.{block_at, Counts, IsSynced, Unchanged, Wrote};
    ghost use Rattle.r10_images.specs.ImageDisk.{image_disk};

    ghost disk = { image_disk };

    fn blocks(&self) -> usize {
        self.bytes.len() / 512
    }

    /// A read of an image never fails, and changes nothing.
    fn read(&mut self, n: usize, block: &mut [u8; 512]) -> Result<(), MediumFault>
        requires { n < length (image_disk self.old).blocks }
        ensures read { OnOk result (block.new ≡ block_at (image_disk self.old).blocks n) }
        ensures same { Unchanged (image_disk self.old) (image_disk self.new) }
        ensures counts { Counts (image_disk self.old) (image_disk self.new) result }
        ensures never_fails { IsOk result }
        ensures image { self.new ≡ self.old }
    {
        block.copy_from_slice(&self.bytes[512 * n..512 * n + 512]);
        Ok(())
    }

    /// A write of an image always fails, and changes nothing of it: what is read, and what a power loss may leave, is as before.
    fn write(&mut self, n: usize, block: &[u8; 512]) -> Result<(), MediumFault>
        requires { n < length (image_disk self.old).blocks }
        ensures written { OnOk result ((image_disk self.new).blocks ≡ slice_set (image_disk self.old).blocks n block.now) }
        ensures wrote { Wrote n block.now (image_disk self.old) (image_disk self.new) }
        ensures counts { Counts (image_disk self.old) (image_disk self.new) result }
        ensures always_fails { IsErr result }
        ensures same { Unchanged (image_disk self.old) (image_disk self.new) }
    {
        self.failures = self.failures.saturating_add(1);
        Err(MediumFault)
    }

    /// A sync of an image never fails, and changes nothing.
    fn sync(&mut self) -> Result<(), MediumFault>
        ensures durable { OnOk result (IsSynced (image_disk self.new)) }
        ensures same { Unchanged (image_disk self.old) (image_disk self.new) }
        ensures counts { Counts (image_disk self.old) (image_disk self.new) result }
        ensures never_fails { IsOk result }
        ensures image { self.new ≡ self.old }
    {
        Ok(())
    }

    fn failures(&self) -> u64 {
        self.failures
    }
}
