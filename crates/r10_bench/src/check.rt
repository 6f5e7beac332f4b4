//! Files judged: how long the verdict on a file of one kind of messages takes.

use crate::fault::BenchFault;
use crate::figures::{lap, show};
use r10_body::Kind;
use r10_checker::{Verdict, check_file};
use r10_count::{Civil, Count, Parts};
use r10_packet::{Check, Header, Packet};
use r10_setup::SetupBody;
use r10_timebody::TimeBody;
use std::alloc::{AllocError, Global};
use std::time::CpuClock;

/// How many bytes a file has at most, and how many for each message that is asked for.
const MOST: usize = 0x2000_0000;

const SHARE: usize = 64;

/// How many bytes the messages of a packet have with what stands in front of them, at most.
const PACKET: usize = 65_536;

/// The bytes of the longest messages.
const TEXT: [u8; 1024] = [0x55; 1024];

/// What a file has.
#[derive(Clone, Copy)]
pub(crate) struct Shape {
    /// What is printed: the kind, the channels, the packet flags that tell the data checksum, and the bytes of a message.
    name: &'static str,
    kind: Kind,
    channels: u16,
    flags: u8,
    /// How many bytes a message has, after its stamp and its header.
    message: usize,
    /// Stamp and header of a message, at count 0.
    front: &'static [u8],
    /// The channel specific data word, or 0 where it is the number of messages.
    word: u32,
}

/// What a file of UART messages has, and what others have in common with it.
const UART: Shape = Shape {
    name: "judge-uart-4-3-1024",
    kind: Kind::Uart,
    channels: 4,
    flags: 3,
    message: 1024,
    front: &[0, 0, 0, 0, 0, 0, 0, 0, 0, 4, 0, 0],
    word: 0x8000_0000,
};

/// The files that are judged.
pub(crate) const SHAPES: [Shape; 11] = [
    UART,
    Shape {
        name: "judge-uart-4-2-1024",
        flags: 2,
        ..UART
    },
    Shape {
        name: "judge-uart-256-3-1024",
        channels: 256,
        ..UART
    },
    Shape {
        name: "judge-uart-256-2-1024",
        channels: 256,
        flags: 2,
        ..UART
    },
    Shape {
        name: "judge-uart-4-3-64",
        message: 64,
        front: &[0, 0, 0, 0, 0, 0, 0, 0, 64, 0, 0, 0],
        ..UART
    },
    Shape {
        name: "judge-uart-4-3-8",
        message: 8,
        front: &[0, 0, 0, 0, 0, 0, 0, 0, 8, 0, 0, 0],
        ..UART
    },
    Shape {
        name: "judge-message-4-3-64",
        kind: Kind::Message,
        message: 64,
        front: &[0, 0, 0, 0, 0, 0, 0, 0, 64, 0, 0, 0],
        word: 0,
        ..UART
    },
    Shape {
        name: "judge-bus-4-3-4",
        kind: Kind::Bus1553,
        message: 4,
        front: &[0, 0, 0, 0, 0, 0, 0, 0, 0, 0, 0, 0, 4, 0],
        word: 0,
        ..UART
    },
    Shape {
        name: "judge-bus-4-3-64",
        kind: Kind::Bus1553,
        message: 64,
        front: &[0, 0, 0, 0, 0, 0, 0, 0, 0, 0, 0, 0, 64, 0],
        word: 0,
        ..UART
    },
    Shape {
        name: "judge-arinc-4-3-4",
        kind: Kind::Arinc,
        message: 4,
        front: &[0, 0, 0, 0],
        word: 0,
        ..UART
    },
    Shape {
        name: "judge-discrete-4-3-4",
        kind: Kind::Discrete,
        message: 4,
        front: &[0, 0, 0, 0, 0, 0, 0, 0],
        word: 8 * 31,
        ..UART
    },
];

/// Adds a packet of a body, at count 0.
fn push_packet(
    alloc: Global,
    channel: u16,
    data_type: u8,
    sequence: u8,
    flags: u8,
    body: &[u8],
    file: &mut Vec<u8>,
) -> Result<(), BenchFault> {
    let width = Check::of_flags(flags).width();
    if body.len() > 524_264 - width {
        return Err(BenchFault::Lost);
    }
    let Some(counter) = Count::of(0) else {
        unreachable!()
    };
    let header = Header {
        channel,
        packet_len: 0,
        data_len: 0,
        version: 8,
        sequence,
        flags,
        data_type,
        counter,
    };
    let packet = Packet::frame(alloc, &header, body)?;
    file.extend_from_slice(packet.as_slice())?;
    Ok(())
}

/// Adds setup and time.
fn push_start(alloc: Global, file: &mut Vec<u8>) -> Result<(), BenchFault> {
    let setup = SetupBody { text: &[] }.encode(alloc)?;
    push_packet(alloc, 0, 0x01, 0, 0, setup.as_slice(), file)?;
    let parts = Parts {
        year: 2026,
        month: 11,
        day: 23,
        hour: 0,
        minute: 0,
        second: 0,
        centi: 0,
    };
    let Some(civil) = Civil::of(parts) else {
        return Err(BenchFault::Lost);
    };
    push_packet(alloc, 1, 0x11, 0, 0, &TimeBody { civil }.encode(), file)
}

/// The body of a packet of messages.
fn make_body(alloc: Global, shape: &Shape) -> Result<Vec<u8>, AllocError> {
    let text = &TEXT[..shape.message.min(1024)];
    let size = shape.front.len().saturating_add(text.len());
    let number = PACKET / size.saturating_add(2).max(1);
    let word = if shape.word == 0 {
        number as u32
    } else {
        shape.word
    };
    let mut body = Vec::with_capacity(alloc, PACKET)?;
    body.extend_from_slice(&word.to_le_bytes())?;
    for _ in 0..number {
        body.extend_from_slice(shape.front)?;
        body.extend_from_slice(text)?;
    }
    Ok(body)
}

/// A file of so many bytes, or a packet more.
fn make_file(alloc: Global, shape: &Shape, bytes: usize) -> Result<Vec<u8>, BenchFault> {
    let body = make_body(alloc, shape)?;
    let mut file = Vec::with_capacity(alloc, bytes)?;
    push_start(alloc, &mut file)?;
    let channels = usize::from(shape.channels.max(1));
    for number in 0..bytes / body.len().saturating_add(28) {
        let channel = ((number % channels) as u16).wrapping_add(2);
        let sequence = (number / channels % 256) as u8;
        push_packet(
            alloc,
            channel,
            shape.kind.data_type(),
            sequence,
            shape.flags,
            body.as_slice(),
            &mut file,
        )?;
    }
    Ok(file)
}

/// Judges a file of this shape, as long as so many messages.
pub(crate) fn run<R: Print + CpuClock>(
    rt: &R,
    alloc: Global,
    shape: &Shape,
    number: u32,
) -> Result<(), BenchFault> {
    let bytes = (number as usize).min(MOST / SHARE) * SHARE;
    let file = make_file(alloc, shape, bytes)?;
    let mut last = 0;
    lap(rt, &mut last);
    let verdict = check_file(alloc, file.as_slice())?;
    let judging = lap(rt, &mut last);
    let figure = (shape.name, file.len() as u64, "bytes", judging);
    show(rt, verdict == Verdict::Strict, &[figure])
}
