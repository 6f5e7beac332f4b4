//! Calls for bodies that no program makes: `r10_uart`, `r10_b1553`, `r10_a429`, `r10_discrete`, `r10_message`, `r10_timebody`,
//! `r10_indexbody`.

use r10_a429::{ArincBody, ArincEntry, ArincMessage};
use r10_b1553::{BusBody, BusEntry, BusMessage};
use r10_count::{Civil, Count, Parts, Reading};
use r10_discrete::{DiscreteBody, DiscreteEntry, DiscreteMessage};
use r10_indexbody::{LossBody, NodeBody, NodeEntry, RootBody, RootEntry};
use r10_message::{DataMessage, MessageBody, MessageEntry};
use r10_timebody::TimeBody;
use r10_uart::{UartBody, UartEntry, UartMessage};
use std::alloc::{AllocError, Global};
use std::test::Fail;

fn count(units: u64) -> Result<Count, Fail> {
    Ok(Count::of(units).ok_or("no count")?)
}

/// ABC at 1000.
const UART: [u8; 20] = [
    0, 0, 0, 0x80, 0xE8, 3, 0, 0, 0, 0, 0, 0, 3, 0, 0, 0, 0x41, 0x42, 0x43, 0,
];

/// A message of two words on bus B at 2000.
const BUS: [u8; 22] = [
    1, 0, 0, 0, 0xD0, 7, 0, 0, 0, 0, 0, 0, 0, 0x20, 0, 0, 4, 0, 0x21, 0x08, 0xCD, 0xAB,
];

/// A word of the high speed bus 1, where the packet begins.
const ARINC: [u8; 12] = [1, 0, 0, 0, 0, 0, 0x20, 1, 0x78, 0x56, 0x34, 0x12];

/// The first and the last of eight discretes at 3000.
const DISCRETE: [u8; 16] = [0x40, 0, 0, 0, 0xB8, 0x0B, 0, 0, 0, 0, 0, 0, 0x81, 0, 0, 0];

/// ABC at 1000, of subchannel 1.
const MESSAGE: [u8; 20] = [
    1, 0, 0, 0, 0xE8, 3, 0, 0, 0, 0, 0, 0, 3, 0, 1, 0, 0x41, 0x42, 0x43, 0,
];

/// 2024-02-29 12:34:56.78.
const TIME: [u8; 12] = [1, 3, 0, 0, 0x78, 0x56, 0x34, 0x12, 0x29, 2, 0x24, 0x20];

/// One message of channel 5 was lost.
const LOSS: [u8; 20] = [
    0, 0, 0, 0, 0x4C, 0x4F, 0x53, 0x53, 5, 0, 0, 0, 1, 0, 0, 0, 0, 0, 0, 0,
];

/// The bytes that are written of what is read of a UART message, their size, and the message's count.
fn uart(alloc: Global) -> Result<(Vec<u8>, usize, u64), AllocError> {
    let mut out = Vec::new(alloc);
    let Reading::Strict(body) = UartBody::decode(alloc, &UART)? else {
        return Ok((out, 0, 0));
    };
    if body.check() {
        body.encode_into(&mut out)?;
    }
    Ok((out, body.size(), said_of_uart(&body)))
}

/// The count of the message alone, if it is the expected one.
fn said_of_uart(body: &UartBody) -> u64 {
    let [
        UartEntry {
            count,
            message: UartMessage { parity, sub, bytes },
        },
    ] = body.entries.as_slice()
    else {
        return 0;
    };
    if !*parity && *sub == 0 && bytes.len() == 3 {
        count.get()
    } else {
        0
    }
}

fn bus(alloc: Global) -> Result<(Vec<u8>, usize, u64), AllocError> {
    let mut out = Vec::new(alloc);
    let Reading::Strict(body) = BusBody::decode(alloc, &BUS)? else {
        return Ok((out, 0, 0));
    };
    if body.check() {
        body.encode_into(&mut out)?;
    }
    Ok((out, body.size(), said_of_bus(&body)))
}

fn said_of_bus(body: &BusBody) -> u64 {
    let [
        BusEntry {
            count,
            message: BusMessage { status, gap, words },
        },
    ] = body.entries.as_slice()
    else {
        return 0;
    };
    if *status == 0x2000 && *gap == 0 && words.len() == 2 {
        count.get()
    } else {
        0
    }
}

fn arinc(alloc: Global, counter: Count) -> Result<(Vec<u8>, usize, u64), AllocError> {
    let mut out = Vec::new(alloc);
    let Reading::Strict(body) = ArincBody::decode(alloc, counter, &ARINC)? else {
        return Ok((out, 0, 0));
    };
    if body.check(counter) {
        body.encode_into(counter, &mut out)?;
    }
    Ok((out, body.size(), said_of_arinc(&body)))
}

fn said_of_arinc(body: &ArincBody) -> u64 {
    let [
        ArincEntry {
            count,
            message: ArincMessage {
                bus,
                format,
                parity,
                high,
                word,
            },
        },
    ] = body.entries.as_slice()
    else {
        return 0;
    };
    if *bus == 1 && !*format && !*parity && *high && *word == 0x1234_5678 {
        count.get()
    } else {
        0
    }
}

fn discrete(alloc: Global) -> Result<(Vec<u8>, usize, u64), AllocError> {
    let mut out = Vec::new(alloc);
    let Reading::Strict(body) = DiscreteBody::decode(alloc, &DISCRETE)? else {
        return Ok((out, 0, 0));
    };
    if body.check() {
        body.encode_into(&mut out)?;
    }
    Ok((out, body.size(), said_of_discrete(&body)))
}

fn said_of_discrete(body: &DiscreteBody) -> u64 {
    let [
        DiscreteEntry {
            count,
            message: DiscreteMessage { states },
        },
    ] = body.entries.as_slice()
    else {
        return 0;
    };
    if body.bits == 8 && *states == 0x81 {
        count.get()
    } else {
        0
    }
}

fn message(alloc: Global) -> Result<(Vec<u8>, usize, u64), AllocError> {
    let mut out = Vec::new(alloc);
    let Reading::Strict(body) = MessageBody::decode(alloc, &MESSAGE)? else {
        return Ok((out, 0, 0));
    };
    if body.check() {
        body.encode_into(&mut out)?;
    }
    Ok((out, body.size(), said_of_message(&body)))
}

fn said_of_message(body: &MessageBody) -> u64 {
    let [
        MessageEntry {
            count,
            message: DataMessage {
                data_error,
                format,
                sub,
                bytes,
            },
        },
    ] = body.entries.as_slice()
    else {
        return 0;
    };
    if !*data_error && !*format && *sub == 1 && bytes.len() == 3 {
        count.get()
    } else {
        0
    }
}

#[test]
fn bodies_of_messages_are_read_and_written(rt: HostRuntime) -> Result<(), Fail> {
    let alloc = rt.alloc();
    let counter = count(5000)?;
    for ((out, size, said), bytes, count) in [
        (uart(alloc)?, UART.as_slice(), 1000),
        (bus(alloc)?, BUS.as_slice(), 2000),
        (arinc(alloc, counter)?, ARINC.as_slice(), 5000),
        (discrete(alloc)?, DISCRETE.as_slice(), 3000),
        (message(alloc)?, MESSAGE.as_slice(), 1000),
    ] {
        assert_eq!(rt; (out.as_slice(), size, said), (bytes, bytes.len(), count));
    }
    Ok(())
}

#[test]
fn a_time_is_written_and_read(rt: HostRuntime) -> Result<(), Fail> {
    let civil = Civil::of(Parts {
        year: 2024,
        month: 2,
        day: 29,
        hour: 12,
        minute: 34,
        second: 56,
        centi: 78,
    });
    let civil = civil.ok_or("no time")?;
    let body = TimeBody { civil };
    let mut out = Vec::new(rt.alloc());
    body.encode_into(&mut out)?;
    assert_eq!(rt;
        (body.check(), body.size(), out.as_slice()),
        (true, 12, TIME.as_slice())
    );
    assert!(rt; TimeBody::decode(&TIME) == Reading::Strict(civil));
    Ok(())
}

#[test]
fn a_loss_report_is_written_and_read(rt: HostRuntime) -> Result<(), Fail> {
    let body = LossBody {
        channel: 5,
        reserved: 0,
        lost: 1,
    };
    let mut out = Vec::new(rt.alloc());
    body.encode_into(&mut out)?;
    assert_eq!(rt; (body.size(), out.as_slice()), (20, LOSS.as_slice()));
    assert!(rt; LossBody::decode(&LOSS) == Some(body));
    Ok(())
}

/// A node that names a setup text at 1000, where the file begins.
const NODE: [u8; 24] = [
    1, 0, 0, 0x80, 0xE8, 3, 0, 0, 0, 0, 0, 0, 0, 0, 0x01, 0, 0, 0, 0, 0, 0, 0, 0, 0,
];

/// A root that names a node and itself.
const ROOT: [u8; 36] = [
    2, 0, 0, 0, 0xE8, 3, 0, 0, 0, 0, 0, 0, 124, 0, 0, 0, 0, 0, 0, 0, 0xE8, 3, 0, 0, 0, 0, 0, 0,
    212, 0, 0, 0, 0, 0, 0, 0,
];

fn node_bytes(alloc: Global, counter: Count) -> Result<Vec<u8>, AllocError> {
    let mut out = Vec::new(alloc);
    let setup = NodeEntry {
        counter,
        data_type: 1,
        channel: 0,
        offset: 0,
    };
    NodeBody::write(&[setup], &mut out)?;
    Ok(out)
}

fn root_bytes(alloc: Global, counter: Count) -> Result<Vec<u8>, AllocError> {
    let mut out = Vec::new(alloc);
    let node = RootEntry {
        counter,
        offset: 124,
    };
    let root = RootEntry {
        counter,
        offset: 212,
    };
    RootBody::write(&[node, root], &mut out)?;
    Ok(out)
}

#[test]
fn nodes_and_roots_are_written(rt: HostRuntime) -> Result<(), Fail> {
    let counter = count(1000)?;
    let node = node_bytes(rt.alloc(), counter)?;
    let root = root_bytes(rt.alloc(), counter)?;
    assert_eq!(rt; node.as_slice(), NODE.as_slice());
    assert_eq!(rt; root.as_slice(), ROOT.as_slice());
    Ok(())
}
