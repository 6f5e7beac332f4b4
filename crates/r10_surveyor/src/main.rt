//! The program `r10-survey`: the survey of the recording on standard input, as lines on standard output. Status 0 for a lenient
//! recording, 1 for one with a stretch that no packet has, 2 for wrong words, 3 where it can't go on.
#![tactic(auto)]

mod input;
mod lines;

use crate::input::survey_input;
use crate::lines::write_report;
use std::alloc::Global;
use std::io;
use std::io::{BufWriter, Write};
use std::process::ExitCode;
use std::rt::Env;

/// The program's version: a build without its proof says so after it.
const VERSION: &str = "0.2.0";

/// What the program is, in one line.
const USAGE: &str = "usage: r10-survey < RECORDING";

/// What `--help` prints.
const HELP: &str =
    "Surveys the recording on standard input, of any recorder and size, in bounded memory.

Usage: r10-survey < RECORDING

Options:
  -h, --help     Print help
  -V, --version  Print version

Each line is of words and numbers that stand in pairs; times are counts of 100 ns:

  channel ID type 0xTT other N packets N bytes N entries N opaque N sums N losses N gaps N first COUNT last COUNT
  stretch offset N length N
  file bytes N stretches N
  verdict lenient | damaged, faulty at N | faulty at N

A channel has the data type of its first packet, and other counts packets of another. Entries are those of packets that are read.
Opaque are packets that are not, and sums are those of them whose data checksum is wrong. Losses are packets that are flagged for
messages lost before them, and gaps are packets whose sequence number is not the next one. A stretch has bytes that no packet has:
the first 4,096 have a line, and the file's line counts all. Whether a recording is strict is asked of r10 check.

Status 0: the recording is lenient. 1: it is not. 2: the call is wrong. 3: memory, reading or writing fails.";

/// What a call asks for.
#[derive(Clone, Copy)]
enum Wanted {
    Survey,
    Help,
    Version,
    /// What this program does not have.
    Other,
}

/// What a call asks for after one word more, at this place; the first is the program's name.
fn wanted_after(place: u8, word: &str) -> Wanted {
    if place == 0 {
        return Wanted::Survey;
    }
    if place != 1 {
        return Wanted::Other;
    }
    match word {
        "-h" | "--help" => Wanted::Help,
        "-V" | "--version" => Wanted::Version,
        _ => Wanted::Other,
    }
}

/// What the words of the command line ask for.
fn wanted_by<R: Env + AllocGlobal>(rt: &R) -> io::Result<Wanted> {
    let mut wanted = Wanted::Survey;
    let mut place = 0u8;
    for word in std::env::args(rt)? {
        wanted = wanted_after(place, &word);
        if place < 2 {
            place += 1;
        }
    }
    Ok(wanted)
}

/// Surveys the input, writes the lines, and answers the status.
fn run<R: io::Read, W: Write + Drop, E: Write>(
    alloc: Global,
    reader: &mut R,
    writer: &mut BufWriter<W>,
    faults: &mut E,
) -> u8 {
    let report = match survey_input(alloc, reader) {
        Ok(report) => report,
        Err(fault) => {
            let _ = writeln!(faults, "r10-survey: {fault}");
            return 3;
        }
    };
    let Ok(lenient) = write_report(writer, &report) else {
        return cannot_write(faults);
    };
    match end(writer, faults) {
        0 => { if lenient { 0 } else { 1 } }
        status => status,
    }
}

/// Writes a text as lines, and answers the status.
fn say<W: Write + Drop, E: Write>(writer: &mut BufWriter<W>, faults: &mut E, text: &str) -> u8 {
    if writeln!(writer, "{text}").is_err() {
        return cannot_write(faults);
    }
    end(writer, faults)
}

/// Writes the version, and answers the status.
fn say_version<W: Write + Drop, E: Write>(writer: &mut BufWriter<W>, faults: &mut E) -> u8 {
    if writeln!(writer, "r10-survey {VERSION}").is_err() {
        return cannot_write(faults);
    }
    end(writer, faults)
}

/// Writes out what is held back, and answers the status.
fn end<W: Write + Drop, E: Write>(writer: &mut BufWriter<W>, faults: &mut E) -> u8 {
    if writer.flush().is_err() {
        return cannot_write(faults);
    }
    0
}

/// Says that a write failed, and answers the status.
fn cannot_write<E: Write>(faults: &mut E) -> u8 {
    let _ = writeln!(faults, "r10-survey: cannot write");
    3
}

fn main(rt: HostRuntime) -> ExitCode {
    let alloc: Global = rt.alloc();
    let mut reader = rt.reader();
    let stderr = rt.stderr();
    let mut faults = io::writer(&stderr);
    let Ok(wanted) = wanted_by(&rt) else {
        let _ = writeln!(faults, "r10-survey: cannot read the words of the call");
        return ExitCode::from(3);
    };
    let Ok(mut writer) = BufWriter::new(alloc, io::writer(&rt)) else {
        let _ = writeln!(faults, "r10-survey: out of memory");
        return ExitCode::from(3);
    };
    let status = match wanted {
        Wanted::Survey => run(alloc, &mut reader, &mut writer, &mut faults),
        Wanted::Help => say(&mut writer, &mut faults, HELP),
        Wanted::Version => say_version(&mut writer, &mut faults),
        Wanted::Other => {
            let _ = writeln!(faults, "{USAGE}");
            2
        }
    };
    ExitCode::from(status)
}
