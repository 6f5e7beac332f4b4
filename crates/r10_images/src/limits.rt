//! What a medium may be formatted to.

ghost use Rattle.std.specs.Prelude.{◌≡◌, None, Some, OnOk, IfErr};
ghost use Rattle.r10_count.specs.Checks.{first_broken};
ghost use Rattle.r10_images.specs.Formatted.{format_rules};

use r10_count::is_volume;
use thiserror::Error;

/// What of a medium to be formatted is out of its limits.
#[derive(Clone, Copy, Debug, Drop, Error)]
pub enum Limit {
    /// The number of blocks.
    #[error("a medium has 2 blocks more than its directory at least, and 16777216 at most")]
    Blocks,
    /// The number of blocks reserved for the directory.
    #[error("a directory has 1 to 64 blocks")]
    Directory,
    /// The volume's name.
    #[error("a volume's name is 1 to 32 letters, digits, '.', '_' and '-'")]
    Volume,
}

/// Whether a medium may be formatted so, else the first limit that is broken: the blocks, those
/// reserved for the directory, the volume's name.
pub fn check_format(blocks: usize, directory: usize, volume: &[u8]) -> Result<(), Limit>
    ensures within { OnOk result (first_broken (format_rules blocks directory volume.now) ≡ None) }
    ensures broken { IfErr result (λ limit. first_broken (format_rules blocks directory volume.now) ≡ Some limit) }
{
    if blocks > 16_777_216 || blocks < 2 || blocks - 2 < directory {
        return Err(Limit::Blocks);
    }
    if directory < 1 || directory > 64 {
        return Err(Limit::Directory);
    }
    if !is_volume(volume) {
        return Err(Limit::Volume);
    }
    Ok(())
}
