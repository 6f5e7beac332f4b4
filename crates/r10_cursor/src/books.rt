//! The files that were judged.

ghost use Rattle.std.specs.Prelude.{◌≡◌, ◌≢◌, ◌+◌, ◌*◌, ◌^◌, ◌≤◌, ◌<◌, [], List, Option, None, Some, length, slice_get, IfOk};
ghost use Rattle.std.specs.Prelude.{IfErr, IfSome, IfNone, IsErrOf, IsSomeAnd, OnOk, OnErr};
ghost use Rattle.std.specs.List.{AllByRecursion};
ghost use Rattle.r10_medium.specs.Disk.{Image, IsWhole, Unchanged};
ghost use Rattle.r10_dirblock.specs.Block.{is_closed as is_closed_entry};
ghost use Rattle.r10_dirchain.specs.declared.chain.ChainBlock.{ChainBlock};
ghost use Rattle.r10_body.specs.Packets.{Packet as StrictPacket};
ghost use Rattle.r10_judge.specs.Files.{file_at};
ghost use Rattle.r10_judge.specs.Judged.{TracksStrictFile};
ghost use Rattle.r10_cursor.specs.Files.{IsShownWith, ShowsFile, bytes_in, finished_file};
ghost use Rattle.r10_cursor.specs.JudgedFiles.{HasJudged, IsAdded, IsBook, IsLearned, IsOf, HasPlaces, IsToldRight, IsUnder};
ghost use Rattle.r10_cursor.specs.Refusals.{IsUnread, RefusesRead, RefusesToRead};
ghost use Rattle.r10_cursor.specs.declared.refusal.ReadRefusal.TheVariants as read_refusals;

use crate::judged_file::JudgedFile;
use crate::listing::finished_entry;
use crate::refusal::{ReadRefusal, of_judging};
use crate::written::{Shown, Written};
use r10_dirblock::Entry;
use r10_dirchain::Directory;
use r10_judge::{Extent, Judgement, Tracks, judge_file};
use r10_medium::BlockMedium;
use std::alloc::Global;

/// What is kept of the files that were judged.
#[derive(Drop)]
pub(crate) struct Books {
    kept: Vec<JudgedFile>,
}

impl Books {
    /// Of no files.
    pub fn new(alloc: Global) -> Books
        ensures { result.kept.items ≡ [] }
    {
        Books {
            kept: Vec::new(alloc),
        }
    }

    /// Forgets all files.
    pub fn clear(&mut self)
        ensures { self.new.kept.items ≡ [] }
    {
        self.kept.clear();
    }

    /// Learns of a file, so that it can be read: of the one that is written the recorder reports, and any other is judged whole
    /// where it wasn't before. Answers the place of what is kept of the latter.
    pub(crate) fn learn<M: BlockMedium>(
        &mut self,
        alloc: Global,
        medium: &mut M,
        directory: &Directory,
        written: Option<Written<'_>>,
        file: usize,
        buffer: &mut Vec<u8>,
    ) -> Result<usize, ReadRefusal>
        ensures learned { HasJudged (M.disk medium.old).blocks directory.now written.entry self.old → IfOk result
            (λ place. IsLearned (M.disk medium.old).blocks directory.now written.entry file self.new.kept.items place) }
        ensures judged { HasJudged (M.disk medium.old).blocks directory.now written.entry self.old
            → HasJudged (M.disk medium.old).blocks directory.now written.entry self.new }
        ensures refused { IfErr result (RefusesRead (M.disk medium.old) (M.disk medium.new) directory.now written.entry file) }
        ensures unread { IfErr result (RefusesToRead (M.disk medium.old) (M.disk medium.new) directory.now written.entry file) }
        ensures same { Unchanged (M.disk medium.old) (M.disk medium.new) }
        ensures no_fewer { (M.disk medium.old).failures ≤ (M.disk medium.new).failures }
    {
        if let Some(reported) = written {
            if reported.file == file {
                return Ok(0);
            }
        }
        match finished_entry(directory, written, file) {
            Some(entry) => self.keep(alloc, medium, file, &entry, buffer),
            None => Err(ReadRefusal::NoSuchFile),
        }
    }

    /// Where the packets stand that the medium shows of a file that was learned of, and what nodes say of them: what is reported of
    /// the file that is written, or else what is kept at a place.
    pub(crate) fn shown_packets<'a>(
        &'a self,
        written: Option<Written<'a>>,
        file: usize,
        place: usize,
    ) -> Option<Shown<'a>>
        ensures reported { (image : Image) (chain : List ChainBlock) → IsToldRight image written.entry file
            → IsLearned image chain written.entry file self.now.kept.items place
            → IsSomeAnd result (HasPlaces image chain written.entry file) }
        ensures there { (image : Image) (chain : List ChainBlock)
            → IsLearned image chain written.entry file self.now.kept.items place → result ≢ None }
        ensures shown { (image : Image) (chain : List ChainBlock) (packets : List StrictPacket)
            → IsLearned image chain written.entry file self.now.kept.items place → ShowsFile image chain written.entry file packets
            → IfSome result (λ shown. IsShownWith image shown.first shown.named.now shown.book.now packets) }
    {
        if let Some(reported) = written {
            if reported.file == file {
                return Some(Shown {
                    first: reported.first,
                    named: reported.named,
                    book: reported.book,
                });
            }
        }
        self.book(place)
    }

    /// What is kept at a place.
    fn book(&self, place: usize) -> Option<Shown<'_>>
        ensures some { (k : JudgedFile) → slice_get self.now.kept.items place ≡ Some k → IsSomeAnd result (IsBook k) }
        ensures none { slice_get self.now.kept.items place ≡ None → result ≡ None }
    {
        match self.kept.get(place) {
            Some(kept) => {
                let book = kept.tracks.book();
                Some(Shown {
                    first: kept.first,
                    named: book.entries(),
                    book,
                })
            }
            None => None,
        }
    }

    /// The place of what is kept of a file.
    fn place(&self, file: usize) -> Option<usize>
        ensures { IfSome result (λ n. IsSomeAnd (slice_get self.now.kept.items n) (λ k. k.file ≡ file)) }
    {
        self.kept.iter().position(|kept| kept.file == file)
    }

    /// Judges a file where it wasn't judged before, and answers the place of what is kept of it.
    fn keep<M: BlockMedium>(
        &mut self,
        alloc: Global,
        medium: &mut M,
        file: usize,
        entry: &Entry,
        buffer: &mut Vec<u8>,
    ) -> Result<usize, ReadRefusal>
        ensures kept { (chain : List ChainBlock) (written : Option Written) → finished_file written chain file ≡ Some entry.now
            → AllByRecursion (IsOf (M.disk medium.old).blocks chain written) self.old.kept.items
            → IfOk result (λ n. IsSomeAnd (slice_get self.new.kept.items n) (IsUnder (M.disk medium.old).blocks entry.now)) }
        ensures judged { (chain : List ChainBlock) (written : Option Written) → finished_file written chain file ≡ Some entry.now
            → AllByRecursion (IsOf (M.disk medium.old).blocks chain written) self.old.kept.items
            → AllByRecursion (IsOf (M.disk medium.old).blocks chain written) self.new.kept.items }
        ensures refused { IfErr result (IsUnread (M.disk medium.old) (M.disk medium.new) entry.now) }
        ensures same { Unchanged (M.disk medium.old) (M.disk medium.new) }
        ensures no_fewer { (M.disk medium.old).failures ≤ (M.disk medium.new).failures }
    {
        match self.place(file) {
            Some(place) => Ok(place),
            None => self.judge(alloc, medium, file, entry, buffer),
        }
    }

    /// Judges a file and keeps what is known of it, after the others; answers its place among them.
    fn judge<M: BlockMedium>(
        &mut self,
        alloc: Global,
        medium: &mut M,
        file: usize,
        entry: &Entry,
        buffer: &mut Vec<u8>,
    ) -> Result<usize, ReadRefusal>
        ensures place { IfOk result (λ n. n ≡ length self.old.kept.items) }
        ensures kept { OnOk result (IsAdded (M.disk medium.old).blocks file entry.now self.old.kept.items self.new.kept.items) }
        ensures refused { IfErr result (IsUnread (M.disk medium.old) (M.disk medium.new) entry.now) }
        ensures rest { OnErr result (self.new.kept.items ≡ self.old.kept.items) }
        ensures same { Unchanged (M.disk medium.old) (M.disk medium.new) }
        ensures no_fewer { (M.disk medium.old).failures ≤ (M.disk medium.new).failures }
    {
        let place = self.kept.len();
        let tracks = tracks_of(alloc, medium, entry, buffer)?;
        let first = entry.first_block as usize;
        match self.kept.push(JudgedFile {
            file,
            first,
            tracks,
        }) {
            Ok(()) => Ok(place),
            Err(_) => Err(ReadRefusal::OutOfMemory),
        }
    }
}

/// Judges a file under its directory entry, and answers what is kept of its packets. One of which the medium has more than 2^62
/// bytes is refused `OutOfMemory`.
fn tracks_of<M: BlockMedium>(
    alloc: Global,
    medium: &mut M,
    entry: &Entry,
    buffer: &mut Vec<u8>,
) -> Result<Tracks, ReadRefusal>
    ensures kept { IfOk result
        (λ tracks. TracksStrictFile (is_closed_entry entry.now) tracks (bytes_in (M.disk medium.old).blocks entry.now)) }
    ensures vast { 2 ^ 62 < length (bytes_in (M.disk medium.old).blocks entry.now) → IsErrOf result read_refusals.OutOfMemory }
    ensures refused { IfErr result (IsUnread (M.disk medium.old) (M.disk medium.new) entry.now) }
    ensures same { Unchanged (M.disk medium.old) (M.disk medium.new) }
    ensures no_fewer { (M.disk medium.old).failures ≤ (M.disk medium.new).failures }
{
    let Some(extent) = extent_of(entry, medium.blocks()) else {
        return Err(ReadRefusal::OutOfMemory);
    };
    match judge_file(alloc, medium, extent, entry.is_closed(), buffer) {
        Ok(Judgement::Strict(tracks)) => Ok(tracks),
        Ok(Judgement::Faulty(at)) => Err(ReadRefusal::BadFile(at)),
        Err(fault) => Err(of_judging(fault)),
    }
}

/// How many bytes of a file can be read: more than any medium has.
const MOST_BYTES: usize = 1 << 62;

/// Where a file stands by its directory entry, as far as the medium goes, which has so many blocks. `None` where these are more
/// than 2^62 bytes.
fn extent_of(entry: &Entry, blocks: usize) -> Option<Extent>
    ensures within { IfSome result (λ extent. 512 * extent.first + extent.size ≤ 512 * blocks) }
    ensures size { IfSome result (λ extent. extent.size ≤ 2 ^ 62) }
    ensures bytes { (image : Image) → IsWhole image → length image ≡ blocks
        → IfSome result (λ extent. file_at image extent ≡ bytes_in image entry.now) }
    ensures none { (image : Image) → IsWhole image → length image ≡ blocks
        → IfNone result (2 ^ 62 < length (bytes_in image entry.now)) }
    ensures some { (image : Image) → IsWhole image → length image ≡ blocks
        → IfSome result (λ extent. length (bytes_in image entry.now) ≤ 2 ^ 62) }
{
    let first = (entry.first_block as usize).min(blocks);
    let size = (entry.size as usize).min((blocks - first).saturating_mul(512));
    if size > MOST_BYTES {
        return None;
    }
    Some(Extent { first, size })
}
