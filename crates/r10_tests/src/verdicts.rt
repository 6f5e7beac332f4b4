// All files of a medium, each with its verdict.
use r10_body::{FileFault, Refusal};
use r10_checker::{Verdict, check_medium};
use r10_dirblock::{DirBlock, Entries, Entry, encode, pad};
use r10_medium::{BlockMedium, Memory};
use std::alloc::{AllocError, Global};
use std::process::Abort;
use std::test::Fail;

// the first recording: setup, time, two UART messages, node and root, a header a line and then its body
const FIRST: [u8; 272] = [
    0x25, 0xEB, 0, 0, 0x20, 0, 0, 0, 8, 0, 0, 0, 8, 0, 0, 1, 0xE8, 3, 0, 0, 0, 0, 0x3D, 0xF0, //
    0x0C, 0, 0, 0, 0x41, 0x42, 0x43, 0x44, //
    0x25, 0xEB, 1, 0, 0x24, 0, 0, 0, 12, 0, 0, 0, 8, 0, 0, 0x11, 0xE8, 3, 0, 0, 0, 0, 0x46, 0, //
    0x01, 0x03, 0, 0, 0x78, 0x56, 0x34, 0x12, 0x29, 0x02, 0x24, 0x20, //
    0x25, 0xEB, 5, 0, 0x38, 0, 0, 0, 32, 0, 0, 0, 8, 0, 0, 0x50, 0xE8, 3, 0, 0, 0, 0, 0x72, 0x3F, //
    0, 0, 0, 0x80, 0xE8, 3, 0, 0, 0, 0, 0, 0, 3, 0, 0, 0, 0x41, 0x42, 0x43, 0, //
    0xF2, 3, 0, 0, 0, 0, 0, 0, 0, 0, 0, 0, //
    0x25, 0xEB, 0, 0, 0x58, 0, 0, 0, 64, 0, 0, 0, 8, 1, 0, 3, 0xE8, 3, 0, 0, 0, 0, 0xAD, 0xF3, //
    3, 0, 0, 0x80, //
    0xE8, 3, 0, 0, 0, 0, 0, 0, 0, 0, 0x01, 0, 0, 0, 0, 0, 0, 0, 0, 0, //
    0xE8, 3, 0, 0, 0, 0, 0, 0, 1, 0, 0x11, 0, 32, 0, 0, 0, 0, 0, 0, 0, //
    0xE8, 3, 0, 0, 0, 0, 0, 0, 5, 0, 0x50, 0, 68, 0, 0, 0, 0, 0, 0, 0, //
    0x25, 0xEB, 0, 0, 0x3C, 0, 0, 0, 36, 0, 0, 0, 8, 2, 0, 3, 0xE8, 3, 0, 0, 0, 0, 0x75, 0xF4, //
    2, 0, 0, 0, //
    0xE8, 3, 0, 0, 0, 0, 0, 0, 124, 0, 0, 0, 0, 0, 0, 0, //
    0xE8, 3, 0, 0, 0, 0, 0, 0, 212, 0, 0, 0, 0, 0, 0, 0,
];

// a file of so many bytes, from a block on
fn file(first_block: u64, size: u64, closed: bool) -> Entry {
    Entry {
        name: pad(b"F "),
        first_block,
        block_count: size.div_ceil(512),
        size,
        close_time: if closed { *b"12345678" } else { *b"--------" },
        ..Entry::default()
    }
}

// a medium of two blocks: the first recording, and the directory of these files
fn medium(rt: &impl Abort, alloc: Global, files: &[Entry; 3]) -> Result<Memory, AllocError> {
    let mut entries = Entries::new();
    for entry in files {
        if !entries.is_full() {
            entries.push(*entry);
        }
    }
    let block = encode(&DirBlock {
        shutdown: 0xFF,
        volume: pad(b"VOL"),
        forward: 1,
        reverse: 1,
        entries,
    });
    let mut image = [0; 1024];
    image[..272].copy_from_slice(&FIRST);
    let mut medium = Memory::of_image(alloc, &image)?;
    assert!(rt; 1 < medium.blocks());
    let _ = medium.write(1, &block);
    Ok(medium)
}

// the length of each name with its verdict
fn verdicts_of<M: BlockMedium>(
    alloc: Global,
    medium: &mut M,
) -> Result<[Option<(usize, Verdict)>; 4], Refusal> {
    let said = check_medium(alloc, medium)?;
    Ok([0, 1, 2, 3].map(|n| said.get(n).map(|file| (file.name.len(), file.verdict))))
}

#[test]
fn each_file_has_its_verdict(rt: HostRuntime) -> Result<(), Fail> {
    let files = [file(0, 272, true), file(0, 212, false), file(2, 0, true)];
    let mut medium = medium(&rt, rt.alloc(), &files)?;
    let faulty = Verdict::Faulty {
        offset: 0,
        fault: FileFault::Truncated,
    };
    let wanted = [
        Some((1, Verdict::Strict)),
        Some((1, Verdict::Lenient { opaque: 0 })),
        Some((1, faulty)),
        None,
    ];
    assert_eq!(rt; verdicts_of(rt.alloc(), &mut medium), Ok(wanted));
    Ok(())
}
