//! What a directory tells where files are held, as calls that do nothing.

ghost use Rattle.std.specs.Prelude.{◌≡◌, ◌≤◌, ◌<◌, ℕ, List, Option, length, map};
ghost use Rattle.r10_medium.specs.Disk.{Image};
ghost use Rattle.r10_dirchain.specs.Chain.{listed_files};
ghost use Rattle.r10_dirchain.specs.declared.chain.ChainBlock.{ChainBlock};
ghost use Rattle.r10_machine.specs.Checks.{is_sealed, is_taken};
ghost use Rattle.r10_machine.specs.Config.{Config};
ghost use Rattle.r10_machine.specs.Machine.{File};
ghost use Rattle.r10_machine.specs.Room.{next_block};
ghost use Rattle.r10_machine.specs.Bytes.{KeepBytes};
ghost use Rattle.r10_machine.specs.Finding.{info_of};
ghost use Rattle.r10_volume.specs.Holding.{HoldsFiles, OpenState};
ghost use Rattle.r10_volume.specs.Listing.{block_behind, has_name, info_in, is_last_closed};

/// Where files are held, a directory tells them: their listing and their number, which names are taken, whether
/// the last is closed, and the block after it, which is none after the medium's end.
pub fn listings_tell()
    ensures infos { (s : Config) (image : Image) (chain : List ChainBlock) (written : Option OpenState) (files : List File)
        → HoldsFiles s image chain written files → map info_in (listed_files chain) ≡ map info_of files }
    ensures count { (s : Config) (image : Image) (chain : List ChainBlock) (written : Option OpenState) (files : List File)
        → HoldsFiles s image chain written files → length (listed_files chain) ≡ length files }
    ensures few { (s : Config) (image : Image) (chain : List ChainBlock) (written : Option OpenState) (files : List File)
        → HoldsFiles s image chain written files → s.directory < length image → length files ≤ length image }
    ensures taken { (s : Config) (image : Image) (chain : List ChainBlock) (written : Option OpenState) (files : List File)
        (name : List ℕ) → HoldsFiles s image chain written files → has_name name (listed_files chain) ≡ is_taken name files }
    ensures closed { (s : Config) (image : Image) (chain : List ChainBlock) (written : Option OpenState) (files : List File)
        → HoldsFiles s image chain written files → is_last_closed (listed_files chain) ≡ is_sealed files }
    ensures behind { (s : Config) (image : Image) (chain : List ChainBlock) (written : Option OpenState) (files : List File)
        → HoldsFiles s image chain written files → block_behind s.directory (listed_files chain) ≡ next_block s files }
    ensures inside { (s : Config) (image : Image) (chain : List ChainBlock) (written : Option OpenState) (files : List File)
        → HoldsFiles s image chain written files → s.directory < length image → next_block s files ≤ length image }
{}

/// An image has the bytes of files that it has.
pub fn an_image_keeps_its_bytes()
    ensures { (image : Image) (files : List File) → KeepBytes image image files }
{}
