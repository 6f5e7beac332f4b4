//! Audits: whether what readers wrote down agrees with a recorder's files.

ghost use Rattle.std.specs.Prelude.{◌≡◌, ◌≤◌, ◌↔◌, List, length, max, take, None, Some, IfErr, IfOk, IsTrue, MatchResult, OnOk};
ghost use Rattle.r10_body.specs.Packets.{Packet as StrictPacket};
ghost use Rattle.r10_control.specs.Checks.{recorder_refusal};
ghost use Rattle.r10_control.specs.Reading.{OnlyReads, IsReadFileRefusal, IsReadAt, ShowsAt};
ghost use Rattle.r10_control.specs.Refused.{RefusesCall};
ghost use Rattle.r10_count.specs.Count.{IsCount};
ghost use Rattle.r10_machine.specs.declared.event.Event.TheVariants as events;
ghost use Rattle.r10_held.specs.Auditing.{AreAbsentOrRead, GoOn, IsAbsentOrRead, IsAuditRefusal, IsFirstRefused, MayReadOn};
ghost use Rattle.r10_held.specs.Auditing.{OpensAgain, ReadsInstalment};
ghost use Rattle.r10_held.specs.Auditing.{at_place, audit_refusal, is_absence as told_absence};
ghost use Rattle.r10_held.specs.Transcripts.{Agrees, AllAgree, beginning};

use crate::transcript::{Instalment, Transcript};
use r10_body::{Refusal, are_same};
use r10_control::Recorder;
use r10_cursor::Cursor;
use r10_lane::LaneOut;
use r10_machine::order_is_unique;
use r10_medium::BlockMedium;
use std::alloc::Global;

/// Whether each of several transcripts agrees with the recorder's files, as they stand. Refused as `audit` of the first that
/// doesn't agree: Failed, BadFile, Medium, OutOfMemory.
pub fn audit_all<M: BlockMedium, L: LaneOut>(
    alloc: Global,
    recorder: &mut Recorder<M, L>,
    transcripts: &[Transcript],
) -> Result<bool, Refusal>
    ensures agrees { IfOk result
        (λ yes. IsTrue yes ↔ AllAgree recorder.old.kept.work (M.disk recorder.old.medium).blocks transcripts.now) }
    ensures there { OnOk result (AreAbsentOrRead recorder.old.kept.work (M.disk recorder.old.medium).blocks transcripts.now) }
    ensures passed { OnOk result (audit_refusal recorder.old.kept ≡ None) }
    ensures refused { IfErr result (RefusesCall M.disk (audit_refusal recorder.old.kept)
        (IsFirstRefused recorder.old.kept.work (M.disk recorder.old.medium).blocks transcripts.now) recorder.old.kept
        recorder.new.kept recorder.old.medium recorder.new.medium) }
    ensures reads { OnlyReads M.disk recorder.old recorder.new result }
{
    if let Err(refusal) = check_works(recorder) {
        return Err(refusal);
    }
    for place in 0..transcripts.len() {
        match audit(alloc, recorder, &transcripts[place]) {
            Ok(true) => {}
            Ok(false) => return Ok(false),
            Err(refusal) => return Err(refusal),
        }
    }
    Ok(true)
}

/// The recorder didn't fail.
fn check_works<M: BlockMedium, L: LaneOut>(recorder: &Recorder<M, L>) -> Result<(), Refusal>
    ensures { MatchResult result (λ u. audit_refusal recorder.now.kept ≡ None) (λ r. audit_refusal recorder.now.kept ≡ Some r) }
{
    match recorder.generation() {
        Ok(_) => Ok(()),
        Err(refusal) => {
            if is_absence(refusal) {
                Ok(())
            } else {
                Err(refusal)
            }
        }
    }
}

/// Whether a transcript agrees with the recorder's files, as they stand: its file is there, its instalments follow on one another,
/// and each has the entries that were wanted of the packets between its places, in order. It reads from the first place to the
/// last. Refused: Failed, BadFile with the file's first fault, Medium, OutOfMemory. Where no file has the number, or nothing is
/// mounted, it doesn't agree.
pub fn audit<M: BlockMedium, L: LaneOut>(
    alloc: Global,
    recorder: &mut Recorder<M, L>,
    transcript: &Transcript,
) -> Result<bool, Refusal>
    ensures agrees { IfOk result
        (λ yes. IsTrue yes ↔ Agrees recorder.old.kept.work (M.disk recorder.old.medium).blocks transcript.now) }
    ensures there { OnOk result (IsAbsentOrRead recorder.old.kept.work (M.disk recorder.old.medium).blocks transcript.now.file) }
    ensures passed { OnOk result (audit_refusal recorder.old.kept ≡ None) }
    ensures refused { IfErr result (RefusesCall M.disk (audit_refusal recorder.old.kept)
        (IsAuditRefusal recorder.old.kept.work (M.disk recorder.old.medium).blocks transcript.now.file) recorder.old.kept
        recorder.new.kept recorder.old.medium recorder.new.medium) }
    ensures reads { OnlyReads M.disk recorder.old recorder.new result }
{
    match read_again(alloc, recorder, transcript) {
        Ok(agrees) => Ok(agrees),
        Err(refusal) => {
            if is_absence(refusal) {
                Ok(false)
            } else {
                Err(refusal)
            }
        }
    }
}

/// Whether a refusal says that a file isn't there.
fn is_absence(refusal: Refusal) -> bool
    ensures { result ≡ told_absence refusal }
{
    matches!(refusal, Refusal::NotMounted | Refusal::NoSuchFile)
}

/// Reads a transcript's file again, as far as the transcript goes. Refused as a cursor on the file.
fn read_again<M: BlockMedium, L: LaneOut>(
    alloc: Global,
    recorder: &mut Recorder<M, L>,
    transcript: &Transcript,
) -> Result<bool, Refusal>
    ensures agrees { IfOk result
        (λ yes. IsTrue yes ↔ Agrees recorder.old.kept.work (M.disk recorder.old.medium).blocks transcript.now) }
    ensures there { OnOk result (IsReadAt recorder.old.kept.work (M.disk recorder.old.medium).blocks transcript.now.file) }
    ensures passed { OnOk result (recorder_refusal recorder.old.kept
        (events.Cursor transcript.now.file transcript.now.channels transcript.now.first transcript.now.last) ≡ None) }
    ensures refused { IfErr result (RefusesCall M.disk (recorder_refusal recorder.old.kept
        (events.Cursor transcript.now.file transcript.now.channels transcript.now.first transcript.now.last))
        (IsReadFileRefusal recorder.old.kept.work (M.disk recorder.old.medium).blocks transcript.now.file) recorder.old.kept
        recorder.new.kept recorder.old.medium recorder.new.medium) }
    ensures counts { IsCount transcript.now.first × IsCount transcript.now.last }
    ensures reads { OnlyReads M.disk recorder.old recorder.new result }
{
    let instalments = transcript.instalments.as_slice();
    let mut cursor = match open_again(alloc, recorder, transcript) {
        Ok(cursor) => cursor,
        Err(refusal) => return Err(refusal),
    };
    if let Err(refusal) = pass_over(alloc, recorder, &mut cursor, begins_at(instalments)) {
        return Err(refusal);
    }
    match read_instalments(alloc, recorder, &mut cursor, instalments) {
        Ok(same) => Ok(same),
        Err(refusal) => Err(refusal),
    }
}

/// A cursor on a transcript's file that has covered nothing, for its channels and its range.
fn open_again<M: BlockMedium, L: LaneOut>(
    alloc: Global,
    recorder: &mut Recorder<M, L>,
    transcript: &Transcript,
) -> Result<Cursor, Refusal>
    ensures { OpensAgain M.disk transcript.now recorder.old recorder.new result }
{
    let first = transcript.first.get();
    let last = transcript.last.get();
    let generation = match recorder.generation() {
        Ok(generation) => generation,
        Err(refusal) => return Err(refusal),
    };
    if let Err(refusal) = recorder.check_file(transcript.file, first, last) {
        return Err(refusal);
    }
    let Ok(channels) = transcript.channels.duplicate(alloc) else {
        return Err(Refusal::OutOfMemory);
    };
    Ok(Cursor::new(
        alloc,
        transcript.file,
        generation,
        channels,
        transcript.first,
        transcript.last,
    ))
}

/// Where the first of several instalments begins.
fn begins_at(instalments: &[Instalment]) -> usize
    ensures { result ≡ beginning instalments.now }
{
    match instalments.first() {
        Some(instalment) => instalment.from,
        None => 0,
    }
}

/// Covers what stands before a place, and lets it go.
fn pass_over<M: BlockMedium, L: LaneOut>(
    alloc: Global,
    recorder: &mut Recorder<M, L>,
    cursor: &mut Cursor,
    place: usize,
) -> Result<(), Refusal>
    requires { MayReadOn recorder.old.kept cursor.old }
    ensures covers { (packets : List StrictPacket)
        → ShowsAt recorder.old.kept.work (M.disk recorder.old.medium).blocks cursor.old.file packets
        → OnOk result (cursor.new ≡ at_place (length (take (max place cursor.old.reading.covered) packets)) cursor.old) }
    ensures ready { OnOk result (MayReadOn recorder.new.kept cursor.new) }
    ensures file { cursor.new.file ≡ cursor.old.file }
    ensures refused { IfErr result
        (RefusesCall M.disk None (IsReadFileRefusal recorder.old.kept.work (M.disk recorder.old.medium).blocks cursor.old.file)
        recorder.old.kept recorder.new.kept recorder.old.medium recorder.new.medium) }
    ensures reads { OnlyReads M.disk recorder.old recorder.new result }
{
    match recorder.advance_to(cursor, place) {
        Ok(_) => {
            // The entries before the place are not wanted.
            let _passed_over = cursor.rest(alloc);
            Ok(())
        }
        Err(refusal) => Err(refusal),
    }
}

/// Reads instalments again, one after the other, up to one that is another.
fn read_instalments<M: BlockMedium, L: LaneOut>(
    alloc: Global,
    recorder: &mut Recorder<M, L>,
    cursor: &mut Cursor,
    instalments: &[Instalment],
) -> Result<bool, Refusal>
    requires { MayReadOn recorder.old.kept cursor.old }
    ensures same { (packets : List StrictPacket)
        → ShowsAt recorder.old.kept.work (M.disk recorder.old.medium).blocks cursor.old.file packets
        → cursor.old.reading.covered ≤ length packets → IfOk result (λ yes. IsTrue yes ↔ GoOn packets cursor.old.reading.channels
        cursor.old.reading.from cursor.old.reading.to cursor.old.reading.covered instalments.now) }
    ensures refused { IfErr result
        (RefusesCall M.disk None (IsReadFileRefusal recorder.old.kept.work (M.disk recorder.old.medium).blocks cursor.old.file)
        recorder.old.kept recorder.new.kept recorder.old.medium recorder.new.medium) }
    ensures reads { OnlyReads M.disk recorder.old recorder.new result }
{
    for place in 0..instalments.len() {
        match read_instalment(alloc, recorder, cursor, &instalments[place]) {
            Ok(true) => {}
            Ok(false) => return Ok(false),
            Err(refusal) => return Err(refusal),
        }
    }
    Ok(true)
}

/// Reads an instalment again, where it goes on from where the cursor is, and says whether it is the same.
fn read_instalment<M: BlockMedium, L: LaneOut>(
    alloc: Global,
    recorder: &mut Recorder<M, L>,
    cursor: &mut Cursor,
    instalment: &Instalment,
) -> Result<bool, Refusal>
    requires { MayReadOn recorder.old.kept cursor.old }
    ensures { ReadsInstalment M.disk instalment.now recorder.old recorder.new cursor.old cursor.new result }
{
    // For the proof: entries have one order.
    order_is_unique();
    if instalment.from != cursor.covered() || instalment.to < instalment.from {
        return Ok(false);
    }
    match recorder.advance_to(cursor, instalment.to) {
        Ok(_) => {
            let entries = cursor.rest(alloc);
            Ok(
                cursor.covered() == instalment.to
                    && are_same(entries.as_slice(), instalment.entries.as_slice()),
            )
        }
        Err(refusal) => Err(refusal),
    }
}
