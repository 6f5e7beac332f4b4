//! The calls of the library.

ghost use Rattle.std.specs.Prelude.{◌≡◌, ◌≢◌, ◌⊎◌, ◌↔◌, ◌≤◌, ◌<◌, None, Some, length};
ghost use Rattle.r10_body.specs.Messages.{arinc_message, bus_message, data_message, discrete_message, uart_message};
ghost use Rattle.r10_body.specs.declared.entry.Entry.{Entry};
ghost use Rattle.r10_body.specs.Statuses.{blocks_status, closed_status, directory_status, medium_status, memory_status};
ghost use Rattle.r10_body.specs.Statuses.{open_status, place_status, room_status, script_status};
ghost use Rattle.r10_machine.specs.declared.event.Event.TheVariants as events;
ghost use Rattle.r10_calls.specs.Aside.{HasUnusable};
ghost use Rattle.r10_calls.specs.Checking.{TellsFault, TellsSettings};
ghost use Rattle.r10_calls.specs.Copies.{copied};
ghost use Rattle.r10_calls.specs.Entries.{out_bytes, words_of};
ghost use Rattle.r10_calls.specs.Hand.{TakesInHand, entry_in, is_next_in, next_fields};
ghost use Rattle.r10_calls.specs.Listing.{file_in, files_in, channel_given, lane_place, name_in, file_place, status_given};
ghost use Rattle.r10_calls.specs.Opening.{HasOtherBlocks};
ghost use Rattle.r10_calls.specs.Outs.{cursor_in, left_out, moved_in, queued_in, taken_out};
ghost use Rattle.r10_calls.specs.Reading.{count_in, found_in, is_count_in, lent, next_out, place_in};
ghost use Rattle.r10_calls.specs.EventCalls.{DoesEvent, reply_number};
ghost use Rattle.r10_region.specs.Orders.{CountsQueue, HandsOrderOut, HandsRunOut, HasTold};
ghost use Rattle.r10_region.specs.RegionDisk.{region_disk};
ghost use Rattle.r10_ffi.specs.Calls.{Accounts, DoesWithoutWriting, DoesWriting, ErasesWhereOpen, FailsOver, Goes, HandsHeld};
ghost use Rattle.r10_ffi.specs.Calls.{IsAsideRegion};
ghost use Rattle.r10_ffi.specs.Calls.{IsClosed, IsFormattedRegion, IsOpen, IsOpened, DoesOffer};
ghost use Rattle.r10_ffi.specs.Civil.{parts_of};

use crate::civil::{Civil, parts_of};
use crate::held::LentRecorder;
use crate::recorder::Recorder;
use r10_body::status::{CLOSED, OPEN, OUT_OF_MEMORY, ROOM};
use r10_calls::{
    AccountOut, ChannelOut, EntryOut, FaultOut, FileOut, ScriptOut, StatusOut, count_accepted,
};
use r10_region::{OrderOut, QueueOut, Region, RunOut, Strip};
use std::alloc::Global;

/// The library's version: three numbers of two digits.
const VERSION: u32 = 200;

/// The version of the library: 200 for 0.2.0.
#[unsafe(no_mangle)]
pub extern "C" fn r10_version() -> u32
    ensures { result ≡ 200 }
{
    VERSION
}

/// What the text of a script says of its medium: 0, or 30, or 40 where it can't be taken, and then what is wrong with it.
#[unsafe(no_mangle)]
pub extern "C" fn r10_check_script(
    alloc: Global,
    script: &[u8],
    out: &mut ScriptOut,
    text: &mut [u8],
) -> u32
    ensures taken { result ≡ 0 → TellsSettings script.now out.new × (text.new ≡ text.old) }
    ensures refused { result ≡ script_status → TellsFault out.new text.old text.new }
    ensures memory { result ≡ memory_status → (out.new ≡ out.old) × (text.new ≡ text.old) }
    ensures numbers { (result ≡ 0) ⊎ (result ≡ memory_status) ⊎ (result ≡ script_status) }
{
    r10_calls::check_script(alloc, script, out, text)
}

/// Writes the directory of a medium without files into its memory, and opens a recorder over it, which is not mounted: 0, or 28,
/// 30, 40, 41, 45.
#[unsafe(no_mangle)]
pub extern "C" fn r10_format(
    alloc: Global,
    region: Strip,
    room: usize,
    script: &[u8],
    recorder: &mut Recorder,
) -> u32
    ensures formats { result ≡ 0 → IsOpen recorder.new × IsFormattedRegion script.now region.held recorder.new.handle.held }
    ensures untouched { result ≢ 0 → recorder.new ≡ recorder.old }
    ensures failed { result ≡ medium_status → FailsOver region.held room }
    ensures other { result ≡ blocks_status → HasOtherBlocks script.now (length region.held) }
    ensures opened { (result ≡ open_status) ↔ IsOpen recorder.old }
    ensures numbers { (result ≡ 0) ⊎ (result ≡ medium_status) ⊎ (result ≡ memory_status) ⊎ (result ≡ script_status)
        ⊎ (result ≡ blocks_status) ⊎ (result ≡ open_status) }
{
    if recorder.is_open() {
        return OPEN;
    }
    let Ok((blank, orders)) = Region::over(alloc, region, room) else {
        return OUT_OF_MEMORY;
    };
    let (number, medium) = r10_calls::format(alloc, blank, script);
    if number != 0 {
        return number;
    }
    let (desk, accepted) = match r10_calls::open(alloc, medium, script) {
        Ok(opened) => opened,
        Err(number) => return number,
    };
    let held = LentRecorder {
        desk,
        orders,
        accepted,
    };
    match Box::new(alloc, held) {
        Ok(held) => {
            recorder.put(held);
            0
        }
        Err(_) => OUT_OF_MEMORY,
    }
}

/// Sets the last file of the medium in this memory aside where it was left open, and opens a recorder over it, which is not
/// mounted: 0, or 26, 28, 30, 40, 41, 45.
#[unsafe(no_mangle)]
pub extern "C" fn r10_set_aside(
    alloc: Global,
    region: Strip,
    room: usize,
    script: &[u8],
    recorder: &mut Recorder,
    was_open: &mut bool,
) -> u32
    ensures aside { result ≡ 0
        → IsOpen recorder.new × IsAsideRegion script.now was_open.new region.held recorder.new.handle.held }
    ensures untouched { result ≢ 0 → (recorder.new ≡ recorder.old) × (was_open.new ≡ was_open.old) }
    ensures failed { result ≡ medium_status → FailsOver region.held room }
    ensures unusable { result ≡ directory_status → HasUnusable script.now region.held }
    ensures other { result ≡ blocks_status → HasOtherBlocks script.now (length region.held) }
    ensures opened { (result ≡ open_status) ↔ IsOpen recorder.old }
    ensures numbers { (result ≡ 0) ⊎ (result ≡ directory_status) ⊎ (result ≡ medium_status) ⊎ (result ≡ memory_status)
        ⊎ (result ≡ script_status) ⊎ (result ≡ blocks_status) ⊎ (result ≡ open_status) }
{
    if recorder.is_open() {
        return OPEN;
    }
    let Ok((lent, orders)) = Region::over(alloc, region, room) else {
        return OUT_OF_MEMORY;
    };
    let (done, medium) = r10_calls::set_aside(alloc, lent, script);
    let found = match done {
        Ok(found) => found,
        Err(number) => return number,
    };
    let (desk, accepted) = match r10_calls::open(alloc, medium, script) {
        Ok(opened) => opened,
        Err(number) => return number,
    };
    let held = LentRecorder {
        desk,
        orders,
        accepted,
    };
    match Box::new(alloc, held) {
        Ok(held) => {
            recorder.put(held);
            *was_open = found;
            0
        }
        Err(_) => OUT_OF_MEMORY,
    }
}

/// Opens a recorder, which is not mounted, and of whose operations as many as `room` may wait before more memory is asked for: 0,
/// or 30, 40, 41, 45.
#[unsafe(no_mangle)]
pub extern "C" fn r10_open(
    alloc: Global,
    region: Strip,
    room: usize,
    script: &[u8],
    recorder: &mut Recorder,
) -> u32
    ensures opens { result ≡ 0 → IsOpen recorder.new × IsOpened script.now region.held room recorder.new.handle.held }
    ensures untouched { result ≢ 0 → recorder.new ≡ recorder.old }
    ensures other { result ≡ blocks_status → HasOtherBlocks script.now (length region.held) }
    ensures opened { (result ≡ open_status) ↔ IsOpen recorder.old }
    ensures numbers { (result ≡ 0) ⊎ (result ≡ memory_status) ⊎ (result ≡ script_status) ⊎ (result ≡ blocks_status)
        ⊎ (result ≡ open_status) }
{
    if recorder.is_open() {
        return OPEN;
    }
    let Ok((medium, orders)) = Region::over(alloc, region, room) else {
        return OUT_OF_MEMORY;
    };
    let (desk, accepted) = match r10_calls::open(alloc, medium, script) {
        Ok(opened) => opened,
        Err(number) => return number,
    };
    let held = LentRecorder {
        desk,
        orders,
        accepted,
    };
    match Box::new(alloc, held) {
        Ok(held) => {
            recorder.put(held);
            0
        }
        Err(_) => OUT_OF_MEMORY,
    }
}

/// Hands out the next operation that the recorder asked of the device, or says that all were handed out: 0, or 42 where fewer than
/// 512 bytes were lent, 44.
#[unsafe(no_mangle)]
pub extern "C" fn r10_order(
    alloc: Global,
    recorder: &mut Recorder,
    out: &mut OrderOut,
    bytes: &mut [u8],
) -> u32
    ensures hands { 512 ≤ length bytes.old → IsOpen recorder.old → Goes recorder.old recorder.new
        (λ old new. (result ≡ 0) × HandsHeld old new
        (λ before after. HandsOrderOut before after old.orders new.orders out.new bytes.old bytes.new)) }
    ensures room { length bytes.old < 512 → IsOpen recorder.old
        → (result ≡ room_status) × (recorder.new ≡ recorder.old) × (out.new ≡ out.old) × (bytes.new ≡ bytes.old) }
    ensures closed { IsClosed recorder.old
        → (result ≡ closed_status) × (recorder.new ≡ recorder.old) × (out.new ≡ out.old) × (bytes.new ≡ bytes.old) }
{
    if !recorder.is_open() {
        return CLOSED;
    }
    if bytes.len() < 512 {
        return ROOM;
    }
    let mut held = recorder.take(alloc);
    held.hand_out(out, bytes);
    recorder.put(held);
    0
}

/// Hands out the next operations that the device may do at once, or says that all were handed out: 0, or 42 where fewer than 512
/// bytes were lent, 44.
#[unsafe(no_mangle)]
pub extern "C" fn r10_orders(
    alloc: Global,
    recorder: &mut Recorder,
    out: &mut RunOut,
    bytes: &mut [u8],
) -> u32
    ensures hands { 512 ≤ length bytes.old → IsOpen recorder.old → Goes recorder.old recorder.new
        (λ old new. (result ≡ 0) × HandsHeld old new
        (λ before after. HandsRunOut before after old.orders new.orders out.new bytes.old bytes.new)) }
    ensures room { length bytes.old < 512 → IsOpen recorder.old
        → (result ≡ room_status) × (recorder.new ≡ recorder.old) × (out.new ≡ out.old) × (bytes.new ≡ bytes.old) }
    ensures closed { IsClosed recorder.old
        → (result ≡ closed_status) × (recorder.new ≡ recorder.old) × (out.new ≡ out.old) × (bytes.new ≡ bytes.old) }
{
    if !recorder.is_open() {
        return CLOSED;
    }
    if bytes.len() < 512 {
        return ROOM;
    }
    let mut held = recorder.take(alloc);
    held.hand_out_run(out, bytes);
    recorder.put(held);
    0
}

/// How many operations wait. 0, or 44.
#[unsafe(no_mangle)]
pub extern "C" fn r10_queue(alloc: Global, recorder: &mut Recorder, out: &mut QueueOut) -> u32
    ensures counts { IsOpen recorder.old → Goes recorder.old recorder.new
        (λ old new. (result ≡ 0) × (new.desk ≡ old.desk) × CountsQueue old.orders new.orders out.new) }
    ensures closed { IsClosed recorder.old → (result ≡ closed_status) × (recorder.new ≡ recorder.old) × (out.new ≡ out.old) }
{
    if !recorder.is_open() {
        return CLOSED;
    }
    let mut held = recorder.take(alloc);
    *out = held.orders.count();
    recorder.put(held);
    0
}

/// The program's disk failed: from now on each write and each sync of the recorder fails. 0, or 44.
#[unsafe(no_mangle)]
pub extern "C" fn r10_disk_failed(alloc: Global, recorder: &mut Recorder) -> u32
    ensures reported { IsOpen recorder.old
        → Goes recorder.old recorder.new (λ old new. (result ≡ 0) × (new.desk ≡ old.desk) × HasTold old.orders new.orders) }
    ensures closed { IsClosed recorder.old → (result ≡ closed_status) × (recorder.new ≡ recorder.old) }
{
    if !recorder.is_open() {
        return CLOSED;
    }
    let mut held = recorder.take(alloc);
    held.orders.disk_failed();
    recorder.put(held);
    0
}

/// Closes a recorder: its memory is given back, the region's to its caller. What was not committed is lost. A closed one stays
/// closed.
#[unsafe(no_mangle)]
pub extern "C" fn r10_close(alloc: Global, recorder: &mut Recorder)
    ensures closes { IsClosed recorder.new }
    ensures gone { IsOpen recorder.old → recorder.new.handle.held ≡ None }
    ensures closed { IsClosed recorder.old → recorder.new ≡ recorder.old }
{
    if !recorder.is_open() {
        return;
    }
    let _held = recorder.take(alloc);
}

/// Begins to use the medium. 0, or 1, 3, 26, 28, 30.
#[unsafe(no_mangle)]
pub extern "C" fn r10_mount(alloc: Global, recorder: &mut Recorder) -> u32
    ensures does { IsOpen recorder.old → DoesWriting recorder.old recorder.new result
        (λ old new. DoesEvent region_disk old events.Mount (λ reply. result ≡ reply_number reply) new) }
    ensures closed { IsClosed recorder.old → (result ≡ closed_status) × (recorder.new ≡ recorder.old) }
{
    if !recorder.is_open() {
        return CLOSED;
    }
    let mut held = recorder.take(alloc);
    let answer = held.mount(alloc);
    recorder.put(held);
    answer
}

/// Ends the use of the medium. 0, or 1, 2, 4, 28, 30.
#[unsafe(no_mangle)]
pub extern "C" fn r10_dismount(alloc: Global, recorder: &mut Recorder) -> u32
    ensures does { IsOpen recorder.old → DoesWriting recorder.old recorder.new result
        (λ old new. DoesEvent region_disk old events.Dismount (λ reply. result ≡ reply_number reply) new) }
    ensures closed { IsClosed recorder.old → (result ≡ closed_status) × (recorder.new ≡ recorder.old) }
{
    if !recorder.is_open() {
        return CLOSED;
    }
    let mut held = recorder.take(alloc);
    let answer = held.dismount(alloc);
    recorder.put(held);
    answer
}

/// The clock: a count and the civil time at it. 0, or 1, 2, 10, 11, 13, 25, 28, 30.
#[unsafe(no_mangle)]
pub extern "C" fn r10_tick(alloc: Global, recorder: &mut Recorder, count: u64, civil: &Civil) -> u32
    ensures does { IsOpen recorder.old → DoesWriting recorder.old recorder.new result
        (λ old new. DoesEvent region_disk old (events.Tick count (parts_of civil.now)) (λ reply. result ≡ reply_number reply) new) }
    ensures closed { IsClosed recorder.old → (result ≡ closed_status) × (recorder.new ≡ recorder.old) }
{
    if !recorder.is_open() {
        return CLOSED;
    }
    let mut held = recorder.take(alloc);
    let answer = held.tick(alloc, count, parts_of(civil));
    recorder.put(held);
    answer
}

/// Begins a file of this name and setup text. 0, or 1, 2, 4, 9, 14, 15, 16, 18, 23, 25, 28, 30.
#[unsafe(no_mangle)]
pub extern "C" fn r10_start(
    alloc: Global,
    recorder: &mut Recorder,
    name: &[u8],
    setup: &[u8],
) -> u32
    ensures does { IsOpen recorder.old → DoesWriting recorder.old recorder.new result
        (λ old new. DoesEvent region_disk old (events.Start name.now setup.now) (λ reply. result ≡ reply_number reply) new) }
    ensures closed { IsClosed recorder.old → (result ≡ closed_status) × (recorder.new ≡ recorder.old) }
{
    if !recorder.is_open() {
        return CLOSED;
    }
    let mut held = recorder.take(alloc);
    let answer = held.start(alloc, name, setup);
    recorder.put(held);
    answer
}

/// Offers a message of a serial line. 0, or 6 to 12, 30.
#[unsafe(no_mangle)]
pub extern "C" fn r10_offer_uart(
    alloc: Global,
    recorder: &mut Recorder,
    channel: u16,
    count: u64,
    parity: bool,
    sub: u16,
    bytes: &[u8],
) -> u32
    ensures does { IsOpen recorder.old → DoesOffer result channel recorder.old recorder.new (λ old new. DoesEvent region_disk old
        (events.Offer channel count (uart_message parity sub bytes.now)) (λ reply. result ≡ reply_number reply) new) }
    ensures closed { IsClosed recorder.old → (result ≡ closed_status) × (recorder.new ≡ recorder.old) }
{
    if !recorder.is_open() {
        return CLOSED;
    }
    let mut held = recorder.take(alloc);
    let inside = &mut *held;
    let answer = inside.desk.offer_uart(channel, count, parity, sub, bytes);
    count_accepted(&mut inside.accepted, channel, answer);
    recorder.put(held);
    answer
}

/// Offers a message of a MIL-STD-1553 bus. 0, or 6 to 12, 30.
#[unsafe(no_mangle)]
pub extern "C" fn r10_offer_1553(
    alloc: Global,
    recorder: &mut Recorder,
    channel: u16,
    count: u64,
    status: u16,
    gap: u16,
    words: &[u16],
) -> u32
    ensures does { IsOpen recorder.old → DoesOffer result channel recorder.old recorder.new (λ old new. DoesEvent region_disk old
        (events.Offer channel count (bus_message status gap words.now)) (λ reply. result ≡ reply_number reply) new) }
    ensures closed { IsClosed recorder.old → (result ≡ closed_status) × (recorder.new ≡ recorder.old) }
{
    if !recorder.is_open() {
        return CLOSED;
    }
    let mut held = recorder.take(alloc);
    let inside = &mut *held;
    let answer = inside.desk.offer_1553(channel, count, status, gap, words);
    count_accepted(&mut inside.accepted, channel, answer);
    recorder.put(held);
    answer
}

/// Offers a word of an ARINC 429 bus. 0, or 6 to 12, 30.
#[unsafe(no_mangle)]
pub extern "C" fn r10_offer_arinc(
    alloc: Global,
    recorder: &mut Recorder,
    channel: u16,
    count: u64,
    bus: u8,
    format: bool,
    parity: bool,
    high: bool,
    word: u32,
) -> u32
    ensures does { IsOpen recorder.old → DoesOffer result channel recorder.old recorder.new (λ old new. DoesEvent region_disk old
        (events.Offer channel count (arinc_message bus format parity high word)) (λ reply. result ≡ reply_number reply) new) }
    ensures closed { IsClosed recorder.old → (result ≡ closed_status) × (recorder.new ≡ recorder.old) }
{
    if !recorder.is_open() {
        return CLOSED;
    }
    let mut held = recorder.take(alloc);
    let inside = &mut *held;
    let answer = inside
        .desk
        .offer_arinc(channel, count, bus, format, parity, high, word);
    count_accepted(&mut inside.accepted, channel, answer);
    recorder.put(held);
    answer
}

/// Offers the states of a channel's discretes. 0, or 6 to 12, 30.
#[unsafe(no_mangle)]
pub extern "C" fn r10_offer_discrete(
    alloc: Global,
    recorder: &mut Recorder,
    channel: u16,
    count: u64,
    states: u32,
) -> u32
    ensures does { IsOpen recorder.old → DoesOffer result channel recorder.old recorder.new (λ old new. DoesEvent region_disk old
        (events.Offer channel count (discrete_message states)) (λ reply. result ≡ reply_number reply) new) }
    ensures closed { IsClosed recorder.old → (result ≡ closed_status) × (recorder.new ≡ recorder.old) }
{
    if !recorder.is_open() {
        return CLOSED;
    }
    let mut held = recorder.take(alloc);
    let inside = &mut *held;
    let answer = inside.desk.offer_discrete(channel, count, states);
    count_accepted(&mut inside.accepted, channel, answer);
    recorder.put(held);
    answer
}

/// Offers a message of another source. 0, or 6 to 12, 30.
#[unsafe(no_mangle)]
pub extern "C" fn r10_offer_message(
    alloc: Global,
    recorder: &mut Recorder,
    channel: u16,
    count: u64,
    data_error: bool,
    format: bool,
    sub: u16,
    bytes: &[u8],
) -> u32
    ensures does { IsOpen recorder.old → DoesOffer result channel recorder.old recorder.new (λ old new. DoesEvent region_disk old
        (events.Offer channel count (data_message data_error format sub bytes.now)) (λ reply. result ≡ reply_number reply) new) }
    ensures closed { IsClosed recorder.old → (result ≡ closed_status) × (recorder.new ≡ recorder.old) }
{
    if !recorder.is_open() {
        return CLOSED;
    }
    let mut held = recorder.take(alloc);
    let inside = &mut *held;
    let answer = inside
        .desk
        .offer_message(channel, count, data_error, format, sub, bytes);
    count_accepted(&mut inside.accepted, channel, answer);
    recorder.put(held);
    answer
}

/// So many messages of a channel were lost before they were offered. 0, or 6, 30.
#[unsafe(no_mangle)]
pub extern "C" fn r10_lost(alloc: Global, recorder: &mut Recorder, channel: u16, count: u64) -> u32
    ensures does { IsOpen recorder.old → DoesWithoutWriting recorder.old recorder.new
        (λ old new. DoesEvent region_disk old (events.Lose channel count) (λ reply. result ≡ reply_number reply) new) }
    ensures closed { IsClosed recorder.old → (result ≡ closed_status) × (recorder.new ≡ recorder.old) }
{
    if !recorder.is_open() {
        return CLOSED;
    }
    let mut held = recorder.take(alloc);
    let answer = held.desk.lose(channel, count);
    recorder.put(held);
    answer
}

/// Takes at most so many waiting messages of a channel into the file. 0, or 1, 2, 5, 6, 25, 28, 30.
#[unsafe(no_mangle)]
pub extern "C" fn r10_pump(
    alloc: Global,
    recorder: &mut Recorder,
    channel: u16,
    most: usize,
    moved: &mut usize,
) -> u32
    ensures does { IsOpen recorder.old → DoesWriting recorder.old recorder.new result (λ old new. DoesEvent region_disk old
        (events.Pump channel most) (λ reply. (result ≡ reply_number reply) × (moved.new ≡ moved_in reply moved.old)) new) }
    ensures closed { IsClosed recorder.old → (result ≡ closed_status) × (recorder.new ≡ recorder.old) × (moved.new ≡ moved.old) }
{
    if !recorder.is_open() {
        return CLOSED;
    }
    let mut held = recorder.take(alloc);
    let answer = held.pump(alloc, channel, most, moved);
    recorder.put(held);
    answer
}

/// A recording event. 0, or 1, 2, 5, 10, 11, 17, 25, 28, 30.
#[unsafe(no_mangle)]
pub extern "C" fn r10_event(alloc: Global, recorder: &mut Recorder, number: u16, count: u64) -> u32
    ensures does { IsOpen recorder.old → DoesWriting recorder.old recorder.new result
        (λ old new. DoesEvent region_disk old (events.Event number count) (λ reply. result ≡ reply_number reply) new) }
    ensures closed { IsClosed recorder.old → (result ≡ closed_status) × (recorder.new ≡ recorder.old) }
{
    if !recorder.is_open() {
        return CLOSED;
    }
    let mut held = recorder.take(alloc);
    let answer = held.event(alloc, number, count);
    recorder.put(held);
    answer
}

/// Shows on the medium all that the file has. 0, or 1, 2, 5, 28, 30.
#[unsafe(no_mangle)]
pub extern "C" fn r10_commit(alloc: Global, recorder: &mut Recorder) -> u32
    ensures does { IsOpen recorder.old → DoesWriting recorder.old recorder.new result
        (λ old new. DoesEvent region_disk old events.Commit (λ reply. result ≡ reply_number reply) new) }
    ensures closed { IsClosed recorder.old → (result ≡ closed_status) × (recorder.new ≡ recorder.old) }
{
    if !recorder.is_open() {
        return CLOSED;
    }
    let mut held = recorder.take(alloc);
    let answer = held.commit(alloc);
    recorder.put(held);
    answer
}

/// Takes in what waits, and ends the file. 0, or 1, 2, 5, 28, 30.
#[unsafe(no_mangle)]
pub extern "C" fn r10_stop(
    alloc: Global,
    recorder: &mut Recorder,
    taken: &mut usize,
    left: &mut usize,
) -> u32
    ensures does { IsOpen recorder.old → DoesWriting recorder.old recorder.new result
        (λ old new. DoesEvent region_disk old events.Stop (λ reply. (result ≡ reply_number reply)
        × (taken.new ≡ taken_out reply taken.old) × (left.new ≡ left_out reply left.old)) new) }
    ensures closed { IsClosed recorder.old
        → (result ≡ closed_status) × (recorder.new ≡ recorder.old) × (taken.new ≡ taken.old) × (left.new ≡ left.old) }
{
    if !recorder.is_open() {
        return CLOSED;
    }
    let mut held = recorder.take(alloc);
    let answer = held.stop(alloc, taken, left);
    recorder.put(held);
    answer
}

/// Closes the last file, which was left open. 0, or 1, 2, 4, 19, 25, 27, 28, 30.
#[unsafe(no_mangle)]
pub extern "C" fn r10_seal(alloc: Global, recorder: &mut Recorder) -> u32
    ensures does { IsOpen recorder.old → DoesWriting recorder.old recorder.new result
        (λ old new. DoesEvent region_disk old events.Seal (λ reply. result ≡ reply_number reply) new) }
    ensures closed { IsClosed recorder.old → (result ≡ closed_status) × (recorder.new ≡ recorder.old) }
{
    if !recorder.is_open() {
        return CLOSED;
    }
    let mut held = recorder.take(alloc);
    let answer = held.seal(alloc);
    recorder.put(held);
    answer
}

/// Takes all files from the medium. 0, or 1, 2, 4, 20, 28, 30.
#[unsafe(no_mangle)]
pub extern "C" fn r10_erase(alloc: Global, recorder: &mut Recorder) -> u32
    ensures does { IsOpen recorder.old → ErasesWhereOpen result recorder.old recorder.new }
    ensures closed { IsClosed recorder.old → (result ≡ closed_status) × (recorder.new ≡ recorder.old) }
{
    if !recorder.is_open() {
        return CLOSED;
    }
    let mut held = recorder.take(alloc);
    let answer = held.erase(alloc);
    recorder.put(held);
    answer
}

/// How many files the medium has. 0, or 1, 2, 30.
#[unsafe(no_mangle)]
pub extern "C" fn r10_files(alloc: Global, recorder: &mut Recorder, count: &mut usize) -> u32
    ensures does { IsOpen recorder.old → DoesWithoutWriting recorder.old recorder.new
        (λ old new. DoesEvent region_disk old events.Files
        (λ reply. (result ≡ reply_number reply) × (count.new ≡ files_in reply count.old)) new) }
    ensures closed { IsClosed recorder.old → (result ≡ closed_status) × (recorder.new ≡ recorder.old) × (count.new ≡ count.old) }
{
    if !recorder.is_open() {
        return CLOSED;
    }
    let mut held = recorder.take(alloc);
    let answer = held.desk.files(count);
    recorder.put(held);
    answer
}

/// The file of this number. 0, or 1, 2, 30, 43.
#[unsafe(no_mangle)]
pub extern "C" fn r10_file(
    alloc: Global,
    recorder: &mut Recorder,
    number: usize,
    out: &mut FileOut,
    name: &mut [u8],
) -> u32
    ensures does { IsOpen recorder.old → DoesWithoutWriting recorder.old recorder.new
        (λ old new. DoesEvent region_disk old events.Files (λ reply. (result ≡ file_place reply number)
        × (out.new ≡ file_in reply number out.old) × (name.new ≡ name_in reply number name.old)) new) }
    ensures closed { IsClosed recorder.old
        → (result ≡ closed_status) × (recorder.new ≡ recorder.old) × (out.new ≡ out.old) × (name.new ≡ name.old) }
{
    if !recorder.is_open() {
        return CLOSED;
    }
    let mut held = recorder.take(alloc);
    let answer = held.desk.file(number, out, name);
    recorder.put(held);
    answer
}

/// How the recorder is. 0, or 30.
#[unsafe(no_mangle)]
pub extern "C" fn r10_status(alloc: Global, recorder: &mut Recorder, out: &mut StatusOut) -> u32
    ensures does { IsOpen recorder.old → DoesWithoutWriting recorder.old recorder.new
        (λ old new. DoesEvent region_disk old events.Status
        (λ reply. (result ≡ reply_number reply) × (out.new ≡ status_given reply out.old)) new) }
    ensures closed { IsClosed recorder.old → (result ≡ closed_status) × (recorder.new ≡ recorder.old) × (out.new ≡ out.old) }
{
    if !recorder.is_open() {
        return CLOSED;
    }
    let mut held = recorder.take(alloc);
    let answer = held.desk.status(out);
    recorder.put(held);
    answer
}

/// How the channel at this place of the settings is. 0, or 30, 43.
#[unsafe(no_mangle)]
pub extern "C" fn r10_channel(
    alloc: Global,
    recorder: &mut Recorder,
    place: usize,
    out: &mut ChannelOut,
) -> u32
    ensures does { IsOpen recorder.old → DoesWithoutWriting recorder.old recorder.new
        (λ old new. DoesEvent region_disk old events.Status
        (λ reply. (result ≡ lane_place reply place) × (out.new ≡ channel_given reply place out.old)) new) }
    ensures closed { IsClosed recorder.old → (result ≡ closed_status) × (recorder.new ≡ recorder.old) × (out.new ≡ out.old) }
{
    if !recorder.is_open() {
        return CLOSED;
    }
    let mut held = recorder.take(alloc);
    let answer = held.desk.channel(place, out);
    recorder.put(held);
    answer
}

/// What became of the messages of the channel at this place of the settings, in every mode. 0, or 30, 43.
#[unsafe(no_mangle)]
pub extern "C" fn r10_account(
    alloc: Global,
    recorder: &mut Recorder,
    place: usize,
    out: &mut AccountOut,
) -> u32
    ensures does { IsOpen recorder.old → Accounts result place out.old out.new recorder.old recorder.new }
    ensures closed { IsClosed recorder.old → (result ≡ closed_status) × (recorder.new ≡ recorder.old) × (out.new ≡ out.old) }
{
    if !recorder.is_open() {
        return CLOSED;
    }
    let mut held = recorder.take(alloc);
    let inside = &mut *held;
    let answer = inside.desk.account(place, inside.accepted.as_slice(), out);
    recorder.put(held);
    answer
}

/// Opens a cursor. 0, or 1, 2, 10, 19, 27, 28, 30.
#[unsafe(no_mangle)]
pub extern "C" fn r10_cursor(
    alloc: Global,
    recorder: &mut Recorder,
    file: usize,
    channels: &[u16],
    from: u64,
    to: u64,
    id: &mut usize,
) -> u32
    ensures does { IsOpen recorder.old → DoesWithoutWriting recorder.old recorder.new (λ old new. DoesEvent region_disk old
        (events.Cursor file channels.now from to) (λ reply. (result ≡ reply_number reply)
        × (id.new ≡ cursor_in reply id.old)) new) }
    ensures closed { IsClosed recorder.old → (result ≡ closed_status) × (recorder.new ≡ recorder.old) × (id.new ≡ id.old) }
{
    if !recorder.is_open() {
        return CLOSED;
    }
    let mut held = recorder.take(alloc);
    let answer = held.desk.cursor(file, channels, from, to, id);
    recorder.put(held);
    answer
}

/// Queues a cursor's next instalment. 0, or 1, 2, 20, 21, 22, 27, 28, 30.
#[unsafe(no_mangle)]
pub extern "C" fn r10_advance(
    alloc: Global,
    recorder: &mut Recorder,
    id: usize,
    queued: &mut usize,
) -> u32
    ensures does { IsOpen recorder.old → DoesWithoutWriting recorder.old recorder.new
        (λ old new. DoesEvent region_disk old (events.Advance id)
        (λ reply. (result ≡ reply_number reply) × (queued.new ≡ queued_in reply queued.old)) new) }
    ensures closed { IsClosed recorder.old → (result ≡ closed_status) × (recorder.new ≡ recorder.old) × (queued.new ≡ queued.old) }
{
    if !recorder.is_open() {
        return CLOSED;
    }
    let mut held = recorder.take(alloc);
    let answer = held.desk.advance(id, queued);
    recorder.put(held);
    answer
}

/// Takes the first entry of a cursor's queue. 0, or 21, 30, 42.
#[unsafe(no_mangle)]
pub extern "C" fn r10_next(
    alloc: Global,
    recorder: &mut Recorder,
    id: usize,
    there: &mut bool,
    out: &mut EntryOut,
    bytes: &mut [u8],
    words: &mut [u16],
) -> u32
    ensures does { 65_535 ≤ length bytes.old → 36 ≤ length words.old → IsOpen recorder.old
        → DoesWithoutWriting recorder.old recorder.new (λ old new. DoesEvent region_disk old (events.Next id)
        (λ reply. (result ≡ reply_number reply)
        × (lent there.new out.new bytes.new words.new ≡ next_out reply (lent there.old out.old bytes.old words.old))) new) }
    ensures room { (length bytes.old < 65_535) ⊎ (length words.old < 36) → IsOpen recorder.old
        → Goes recorder.old recorder.new (λ old new. (result ≡ room_status) × (new.desk ≡ old.desk) × (new.orders ≡ old.orders)
        × (lent there.new out.new bytes.new words.new ≡ lent there.old out.old bytes.old words.old)) }
    ensures closed { IsClosed recorder.old → (result ≡ closed_status) × (recorder.new ≡ recorder.old) × (there.new ≡ there.old)
        × (out.new ≡ out.old) × (bytes.new ≡ bytes.old) × (words.new ≡ words.old) }
{
    if !recorder.is_open() {
        return CLOSED;
    }
    let mut held = recorder.take(alloc);
    let answer = held.desk.next(id, there, out, bytes, words);
    recorder.put(held);
    answer
}

/// Takes the first entry of a cursor's queue into the recorder's hand, and gives its fields. 0, or 21, 30.
#[unsafe(no_mangle)]
pub extern "C" fn r10_take(
    alloc: Global,
    recorder: &mut Recorder,
    id: usize,
    there: &mut bool,
    out: &mut EntryOut,
) -> u32
    ensures takes { IsOpen recorder.old
        → DoesWithoutWriting recorder.old recorder.new (λ old new. TakesInHand region_disk old id
        (λ reply. (result ≡ reply_number reply)
        × (there.new ≡ is_next_in reply there.old) × (out.new ≡ next_fields reply out.old)) new) }
    ensures closed { IsClosed recorder.old
        → (result ≡ closed_status) × (recorder.new ≡ recorder.old) × (there.new ≡ there.old) × (out.new ≡ out.old) }
{
    if !recorder.is_open() {
        return CLOSED;
    }
    let mut held = recorder.take(alloc);
    let answer = held.desk.take(id, there, out);
    recorder.put(held);
    answer
}

/// Copies the bytes or words of the entry in hand. 0, or 42 where there is less room than it has of them, 43 where there is none in
/// hand, 44.
#[unsafe(no_mangle)]
pub extern "C" fn r10_taken(
    alloc: Global,
    recorder: &mut Recorder,
    bytes: &mut [u8],
    words: &mut [u16],
) -> u32
    ensures stays { IsOpen recorder.old → DoesWithoutWriting recorder.old recorder.new (λ old new. new ≡ old) }
    ensures none { IsOpen recorder.old → Goes recorder.old recorder.new
        (λ old new. entry_in old.desk.hand ≡ None → (result ≡ place_status) × (bytes.new ≡ bytes.old) × (words.new ≡ words.old)) }
    ensures copies { IsOpen recorder.old → Goes recorder.old recorder.new (λ old new. (e : Entry)
        → entry_in old.desk.hand ≡ Some e → length (out_bytes e) ≤ length bytes.old → length (words_of e) ≤ length words.old
        → (result ≡ 0) × (bytes.new ≡ copied (out_bytes e) bytes.old) × (words.new ≡ copied (words_of e) words.old)) }
    ensures room { IsOpen recorder.old → Goes recorder.old recorder.new (λ old new. (e : Entry)
        → entry_in old.desk.hand ≡ Some e → (length bytes.old < length (out_bytes e)) ⊎ (length words.old < length (words_of e))
        → (result ≡ room_status) × (bytes.new ≡ bytes.old) × (words.new ≡ words.old)) }
    ensures closed { IsClosed recorder.old
        → (result ≡ closed_status) × (recorder.new ≡ recorder.old) × (bytes.new ≡ bytes.old) × (words.new ≡ words.old) }
{
    if !recorder.is_open() {
        return CLOSED;
    }
    let held = recorder.take(alloc);
    let answer = held.desk.copy(bytes, words);
    recorder.put(held);
    answer
}

/// What the last refusal carried, of those that carry something. 0, or 44.
#[unsafe(no_mangle)]
pub extern "C" fn r10_fault(alloc: Global, recorder: &mut Recorder, out: &mut FaultOut) -> u32
    ensures gives { IsOpen recorder.old → Goes recorder.old recorder.new
        (λ old new. (result ≡ 0) × (new.desk ≡ old.desk) × (new.orders ≡ old.orders) × (out.new ≡ old.desk.fault)) }
    ensures closed { IsClosed recorder.old → (result ≡ closed_status) × (recorder.new ≡ recorder.old) × (out.new ≡ out.old) }
{
    if !recorder.is_open() {
        return CLOSED;
    }
    let held = recorder.take(alloc);
    *out = held.desk.fault();
    recorder.put(held);
    0
}

/// Closes a cursor. 0, or 21, 30.
#[unsafe(no_mangle)]
pub extern "C" fn r10_close_cursor(alloc: Global, recorder: &mut Recorder, id: usize) -> u32
    ensures does { IsOpen recorder.old → DoesWithoutWriting recorder.old recorder.new
        (λ old new. DoesEvent region_disk old (events.Close id) (λ reply. result ≡ reply_number reply) new) }
    ensures closed { IsClosed recorder.old → (result ≡ closed_status) × (recorder.new ≡ recorder.old) }
{
    if !recorder.is_open() {
        return CLOSED;
    }
    let mut held = recorder.take(alloc);
    let answer = held.desk.close_cursor(id);
    recorder.put(held);
    answer
}

/// Finds an entry. 0, or 1, 2, 10, 19, 27, 28, 30, 42.
#[unsafe(no_mangle)]
pub extern "C" fn r10_find(
    alloc: Global,
    recorder: &mut Recorder,
    file: usize,
    channel: u16,
    count: u64,
    there: &mut bool,
    number: &mut usize,
    out: &mut EntryOut,
    bytes: &mut [u8],
    words: &mut [u16],
) -> u32
    ensures does { 65_535 ≤ length bytes.old → 36 ≤ length words.old → IsOpen recorder.old
        → DoesWithoutWriting recorder.old recorder.new (λ old new. DoesEvent region_disk old (events.Find file channel count)
        (λ reply. (result ≡ reply_number reply) × (number.new ≡ place_in reply number.old)
        × (lent there.new out.new bytes.new words.new ≡ found_in reply (lent there.old out.old bytes.old words.old))) new) }
    ensures room { (length bytes.old < 65_535) ⊎ (length words.old < 36) → IsOpen recorder.old
        → Goes recorder.old recorder.new (λ old new. (result ≡ room_status) × (new.desk ≡ old.desk) × (new.orders ≡ old.orders)
        × (number.new ≡ number.old) × (lent there.new out.new bytes.new words.new ≡ lent there.old out.old bytes.old words.old)) }
    ensures closed { IsClosed recorder.old → (result ≡ closed_status) × (recorder.new ≡ recorder.old) × (there.new ≡ there.old)
        × (number.new ≡ number.old) × (out.new ≡ out.old) × (bytes.new ≡ bytes.old) × (words.new ≡ words.old) }
{
    if !recorder.is_open() {
        return CLOSED;
    }
    let mut held = recorder.take(alloc);
    let answer = held
        .desk
        .find(file, channel, count, there, number, out, bytes, words);
    recorder.put(held);
    answer
}

/// The count at a civil time. 0, or 1, 2, 13, 19, 27, 28, 30.
#[unsafe(no_mangle)]
pub extern "C" fn r10_count_at(
    alloc: Global,
    recorder: &mut Recorder,
    file: usize,
    civil: &Civil,
    there: &mut bool,
    count: &mut u64,
) -> u32
    ensures does { IsOpen recorder.old → DoesWithoutWriting recorder.old recorder.new
        (λ old new. DoesEvent region_disk old (events.CountAt file (parts_of civil.now)) (λ reply. (result ≡ reply_number reply)
        × (there.new ≡ is_count_in reply there.old) × (count.new ≡ count_in reply count.old)) new) }
    ensures closed { IsClosed recorder.old
        → (result ≡ closed_status) × (recorder.new ≡ recorder.old) × (there.new ≡ there.old) × (count.new ≡ count.old) }
{
    if !recorder.is_open() {
        return CLOSED;
    }
    let mut held = recorder.take(alloc);
    let answer = held.desk.count_at(file, parts_of(civil), there, count);
    recorder.put(held);
    answer
}
