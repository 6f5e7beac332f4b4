//! The command line as `clap` knows it, and what is stated of wrong words.

use clap::builder::ValueParser;
use clap::error::ErrorKind;
use clap::{Arg, ArgAction, ArgMatches, Command, value_parser};
use std::alloc::{AllocError, Global};

/// The version of the program.
const VERSION: &str = "0.2.0";

const ABOUT: &str = "A solid-state flight recorder that writes IRIG 106-17 Chapter 10 files";

const ABOUT_SIM: &str = "Runs a script on a recorder in memory and prints a line for each step";

const MORE_SIM: &str =
    "Without a command r10 does the same; r10 --help has a whole script. A step that
is refused has a line that says so, and the status stays 0. So run a script in
this way first. This finds its refused steps, and prints nothing if there are
none:

  r10 sim < examples/first.toml | grep ' refused '

With --image the medium's image is written in place of the lines: its blocks of
512 bytes, one after the other. Of a refused step nothing is printed then. This
keeps the medium, and lists its files:

  r10 sim --image < examples/first.toml > medium.img
  r10 files < medium.img";

const ABOUT_RUN: &str = "Runs a session script between threads and prints what came of it";

const MORE_RUN: &str = "A session script is read from standard input: a script, whose steps are done
first, in turn. After them its [[feed]], [[order]] and [[reader]] tables go at
the same time, each feed and each reader in a thread of its own. A line is
printed for each step, each feed and each reader. The last line says whether
what the readers read is what the files have, all of the channels and counts
that they want, in order:

  feed CHANNEL accepted A refused R erased E filed F rest K
  reader NUMBER entries K
  audit yes

With audit no the status is 1. A reader whose cursor is refused has the refusal
for its line. An example:

  r10 run < examples/session.toml

With --image the medium's image is written in place of the lines: its blocks of
512 bytes, one after the other, as the session leaves them. The status is the
same. This keeps the medium, and lists its files:

  r10 run --image < examples/session.toml > session.img
  r10 files < session.img";

const ABOUT_FORMAT: &str = "Writes the image of a formatted medium";

const MORE_FORMAT: &str =
    "A medium has 2 blocks more than its directory at least, and 16777216 at most; a
directory 1 to 64. A volume's name is 1 to 32 letters, digits, '.', '_' and
'-'. An example:

  r10 format --blocks 64 --directory 2 --volume VOL > medium.img";

const ABOUT_FILES: &str = "Reads an image and prints a line for each of its files";

const MORE_FILES: &str =
    "An image is read from standard input. A line has the file's number, name, size
in bytes, blocks, and 1 if it is closed, else 0. An image without a directory is
refused, with status 1. An example:

  r10 sim --image < examples/first.toml | r10 files";

const ABOUT_PLAY: &str = "Reads an image and prints the entries of one of its files";

const MORE_PLAY: &str =
    "An image is read from standard input. The file must be strict, and closed as its
directory entry says; else not strict is printed, with status 1. Its entries are
printed by count, then by channel, a line each:

  entry CHANNEL COUNT GAP KIND VALUES

An image without a directory, a number that no file has and a count of more than
48 bits are refused, with status 1. r10 files prints the numbers of an image's
files. An example:

  r10 sim --image < examples/first.toml | r10 play --file 0 --channel 5";

const ABOUT_CHECK: &str = "Reads a recording and prints the verdict on it";

const MORE_CHECK: &str = "A recording is read from standard input. One of these is printed:

  strict               this recorder may have written it
  lenient N            another may have, and N of its packets are not read
  faulty OFFSET FAULT  the first packet at fault begins after OFFSET bytes, and
                       what is wrong there; the status is 1

An example, a recording of a setup and a time packet, which is strict:

  echo 25eb00001c0000000400000008000001e8030000000035f00c000000 \\
    25eb0100240000000c00000008000011e803000000004600010300007856341229022420 |
    xxd -r -p | r10 check";

const MORE: &str = "Without a command r10 does sim: it reads a script from standard input, and
prints a line for each of its steps. In the folder of the sources these run as
they stand:

  r10 < examples/first.toml
  r10 sim --image < examples/first.toml > medium.img
  r10 files < medium.img
  r10 play --channel 5 < medium.img
  tail -c +1537 medium.img | head -c 272 | r10 check
  r10 run < examples/session.toml
  r10 format --blocks 64 --directory 2 --volume VOL > empty.img

A whole script:

  blocks = 16
  directory = 2
  volume = \"VOL\"
  nodes = 100
  time = 1
  event = 2
  [[channel]]
  id = 5
  kind = \"uart\"
  capacity = 2
  check = 0
  bytes = 524288
  number = 65535
  [[step]]
  do = \"mount\"
  [[step]]
  do = \"tick\"
  count = 1000
  civil = \"2024-02-29 12:34:56.78\"
  [[step]]
  do = \"start\"
  name = \"FLT1\"
  setup = \"41424344\"
  [[step]]
  do = \"offer\"
  channel = 5
  count = 1000
  bytes = \"414243\"
  [[step]]
  do = \"pump\"
  channel = 5
  k = 2
  [[step]]
  do = \"stop\"

What a step may do: mount, dismount, tick, start, offer, lose, pump, event,
commit, stop, seal, erase, files, status, cursor, advance, next, close, find,
count_at.
nodes is how many node packets of an index a root names: a file ends with groups
of so many nodes and a root.
docs/FORMAT.md has the keys of scripts, the form of the lines, the format of the
files and the refusals by number; examples/ has a script for each kind of
channel.

Exit status: 0; 1 if an image is refused, a file of it is not strict, a
recording is faulty, or an audit says no; 2 for a wrong command line or script;
3 if memory, reading or writing fails.";

/// What is stated of words that are not refused and ask for nothing.
pub(crate) const ASK_NOTHING: &str = "these words ask for nothing";

/// How many characters of a word are printed.
const MOST: usize = 60;

/// What help shows of a command, and the options that the command has.
#[derive(Clone, Copy)]
struct CommandHelp {
    name: &'static str,
    about: &'static str,
    usage: &'static str,
    more: &'static str,
    options: &'static [ShownOption],
}

/// What help shows of an option, and what it takes.
#[derive(Clone, Copy)]
struct ShownOption {
    name: &'static str,
    takes: Takes,
    is_needed: bool,
    help: &'static str,
}

/// What an option takes.
#[derive(Clone, Copy)]
enum Takes {
    Nothing,
    /// A number of 16 bits.
    Short,
    /// A number of 64 bits.
    Long,
    /// A name, which may begin with a dash.
    Name,
}

const IMAGE: [ShownOption; 1] = [ShownOption {
    name: "image",
    takes: Takes::Nothing,
    is_needed: false,
    help: "Write the medium's image in place of the lines",
}];

const FORMAT: [ShownOption; 3] = [
    ShownOption {
        name: "blocks",
        takes: Takes::Long,
        is_needed: true,
        help: "The blocks of the medium, of 512 bytes each",
    },
    ShownOption {
        name: "directory",
        takes: Takes::Long,
        is_needed: true,
        help: "The blocks reserved for the directory",
    },
    ShownOption {
        name: "volume",
        takes: Takes::Name,
        is_needed: true,
        help: "The volume's name",
    },
];

const PLAY: [ShownOption; 4] = [
    ShownOption {
        name: "file",
        takes: Takes::Long,
        is_needed: false,
        help: "The file's number [default: 0]",
    },
    ShownOption {
        name: "channel",
        takes: Takes::Short,
        is_needed: false,
        help: "The channel, 0 for all [default: 0]",
    },
    ShownOption {
        name: "from",
        takes: Takes::Long,
        is_needed: false,
        help: "The first count [default: 0]",
    },
    ShownOption {
        name: "to",
        takes: Takes::Long,
        is_needed: false,
        help: "The last count [default: 281474976710655]",
    },
];

/// What help shows of a command, or of the program itself.
fn shown_of(called: Called) -> CommandHelp {
    match called {
        Called::Program => CommandHelp {
            name: "r10",
            about: ABOUT,
            usage: "r10 [COMMAND] < INPUT",
            more: MORE,
            options: &[],
        },
        Called::Sim => CommandHelp {
            name: "sim",
            about: ABOUT_SIM,
            usage: "r10 sim [OPTIONS] < SCRIPT",
            more: MORE_SIM,
            options: &IMAGE,
        },
        Called::Run => CommandHelp {
            name: "run",
            about: ABOUT_RUN,
            usage: "r10 run [OPTIONS] < SCRIPT",
            more: MORE_RUN,
            options: &IMAGE,
        },
        Called::Format => CommandHelp {
            name: "format",
            about: ABOUT_FORMAT,
            usage: "r10 format --blocks <N> --directory <N> --volume <NAME> > IMAGE",
            more: MORE_FORMAT,
            options: &FORMAT,
        },
        Called::Files => CommandHelp {
            name: "files",
            about: ABOUT_FILES,
            usage: "r10 files < IMAGE",
            more: MORE_FILES,
            options: &[],
        },
        Called::Play => CommandHelp {
            name: "play",
            about: ABOUT_PLAY,
            usage: "r10 play [OPTIONS] < IMAGE",
            more: MORE_PLAY,
            options: &PLAY,
        },
        Called::Check => CommandHelp {
            name: "check",
            about: ABOUT_CHECK,
            usage: "r10 check < RECORDING",
            more: MORE_CHECK,
            options: &[],
        },
    }
}

/// What `clap` finds in the words.
pub(crate) fn matches_of<'a>(
    alloc: Global,
    words: &'a [String],
) -> Result<ArgMatches<'a>, clap::Error> {
    match command_line(alloc) {
        Ok(line) => line.try_get_matches_from(words),
        Err(error) => Err(clap::Error::from(error)),
    }
}

/// The whole command line.
fn command_line<'a>(alloc: Global) -> Result<Command<'a>, AllocError> {
    let commands = commands(alloc)?;
    match plain_line(alloc, shown_of(Called::Program))
        .version(VERSION)
        .subcommands(commands)
    {
        Ok(line) => line.bin_name("r10"),
        Err(error) => Err(error),
    }
}

/// The commands, in the order of the help.
fn commands<'a>(alloc: Global) -> Result<Vec<Command<'a>>, AllocError> {
    let mut commands = Vec::new(alloc);
    for (_, called) in &NAMED {
        push_line(alloc, &mut commands, *called)?;
    }
    Ok(commands)
}

/// Adds a command with its options.
fn push_line<'a>(
    alloc: Global,
    commands: &mut Vec<Command<'a>>,
    called: Called,
) -> Result<(), AllocError> {
    match full_line(alloc, shown_of(called)) {
        Ok(line) => Ok(commands.push(line)?),
        Err(error) => Err(error),
    }
}

/// A command with its options.
fn full_line<'a>(alloc: Global, shown: CommandHelp) -> Result<Command<'a>, AllocError> {
    let options = options(alloc, shown.options)?;
    plain_line(alloc, shown).args(options)
}

/// A command without its options.
fn plain_line<'a>(alloc: Global, shown: CommandHelp) -> Command<'a> {
    Command::new(alloc, shown.name)
        .about(shown.about)
        .override_usage(shown.usage)
        .after_help(shown.more)
}

/// The options, in the order of the help.
fn options<'a>(alloc: Global, shown: &[ShownOption]) -> Result<Vec<Arg<'a>>, AllocError> {
    let mut options = Vec::new(alloc);
    for option in shown {
        options.push(full_option(alloc, *option))?;
    }
    Ok(options)
}

fn full_option<'a>(alloc: Global, shown: ShownOption) -> Arg<'a> {
    let option = Arg::new(alloc, shown.name)
        .long(shown.name)
        .help(shown.help);
    match shown.takes {
        Takes::Nothing => option.action(ArgAction::SetTrue),
        Takes::Short => number_option(option, value_parser!(u16), shown.is_needed),
        Takes::Long => number_option(option, value_parser!(u64), shown.is_needed),
        Takes::Name => option
            .value_name("NAME")
            .required(shown.is_needed)
            .allow_hyphen_values(true),
    }
}

/// The option with such a number.
fn number_option<'a>(option: Arg<'a>, number: ValueParser<'a>, is_needed: bool) -> Arg<'a> {
    option
        .value_name("N")
        .value_parser(number)
        .required(is_needed)
}

/// Which command the first word after the program's own name calls.
#[derive(Clone, Copy, PartialEq, Eq)]
pub(crate) enum Called {
    /// None: that word is missing, or no command's name.
    Program,
    Sim,
    Run,
    Format,
    Files,
    Play,
    Check,
}

/// The commands by their names, in the order of the help.
const NAMED: [(&str, Called); 6] = [
    ("sim", Called::Sim),
    ("run", Called::Run),
    ("format", Called::Format),
    ("files", Called::Files),
    ("play", Called::Play),
    ("check", Called::Check),
];

/// Which command the words call.
pub(crate) fn called_by(words: &[String]) -> Called {
    match words {
        [_, word, ..] => command_of(word),
        _ => Called::Program,
    }
}

fn command_of(word: &String) -> Called {
    for (name, called) in &NAMED {
        if word.as_str() == *name {
            return *called;
        }
    }
    Called::Program
}

/// Where the command that was called reads what a file would have, or writes it.
fn stream_hint(called: Called) -> &'static str {
    match called {
        Called::Program | Called::Sim => "; a script comes from standard input: r10 < SCRIPT",
        Called::Run => "; a session script comes from standard input: r10 run < SCRIPT",
        Called::Format => "; the image goes to standard output: r10 format .. > IMAGE",
        Called::Files => "; an image comes from standard input: r10 files < IMAGE",
        Called::Play => "; an image comes from standard input: r10 play < IMAGE",
        Called::Check => "; a recording comes from standard input: r10 check < RECORDING",
    }
}

/// Where the command that was called is explained.
pub(crate) fn help_hint(called: Called) -> &'static str {
    match called {
        Called::Program => "; see r10 --help",
        Called::Sim => "; see r10 sim --help",
        Called::Run => "; see r10 run --help",
        Called::Format => "; see r10 format --help",
        Called::Files => "; see r10 files --help",
        Called::Play => "; see r10 play --help",
        Called::Check => "; see r10 check --help",
    }
}

/// What is stated of words that `clap` refuses: what it says of these words as they are printed, for a word that looks like a file
/// where such a file goes, and which help to see.
pub(crate) fn usage_line(alloc: Global, words: &[String]) -> Result<String, AllocError> {
    let printed = printed_words(alloc, words)?;
    hinted_line(alloc, printed.as_slice(), called_by(words))
}

/// What `clap` says of the words, and which help to see.
fn hinted_line(alloc: Global, words: &[String], called: Called) -> Result<String, AllocError> {
    let mut line = refused_line(alloc, words, called)?;
    line.push_str(help_hint(called))?;
    Ok(line)
}

/// What `clap` says of the words.
fn refused_line(alloc: Global, words: &[String], called: Called) -> Result<String, AllocError> {
    match matches_of(alloc, words) {
        Ok(_) => String::from_str(alloc, ASK_NOTHING),
        Err(error) => fault_line(alloc, &error, called),
    }
}

/// The words as they are printed.
fn printed_words(alloc: Global, words: &[String]) -> Result<Vec<String>, AllocError> {
    let mut printed = Vec::new(alloc);
    for word in words {
        printed.push(printed_word(alloc, word.as_str())?)?;
    }
    Ok(printed)
}

/// The first characters of a word, with those escaped that are not printed as they are.
fn printed_word(alloc: Global, word: &str) -> Result<String, AllocError> {
    let front = front_of(alloc, word)?;
    let quoted = format!(in alloc; "{front:?}")?;
    String::from_str(alloc, without_quotes(quoted.as_str()))
}

fn front_of(alloc: Global, word: &str) -> Result<String, AllocError> {
    let mut front = String::new(alloc);
    let mut room = MOST;
    for character in word.chars() {
        if room == 0 {
            break;
        }
        room -= 1;
        front.push(character)?;
    }
    Ok(front)
}

/// A text without the quotes around it.
fn without_quotes(text: &str) -> &str {
    let rest = match text.strip_prefix("\"") {
        Some(rest) => rest,
        None => text,
    };
    match rest.strip_suffix("\"") {
        Some(inner) => inner,
        None => rest,
    }
}

/// The first line of what `clap` says, without its first word. After it stand the word that may be intended, the command that an
/// option without one goes after, the options that are missing, for a word that looks like a file where such a file goes, and for
/// another word that is no command the commands.
fn fault_line(alloc: Global, error: &clap::Error, called: Called) -> Result<String, AllocError> {
    let kind = error.kind();
    if is_memory(kind) {
        return Err(AllocError);
    }
    let text = error.to_string(alloc)?;
    let mut line = String::new(alloc);
    push_fault(&mut line, kind, text.as_str(), called)?;
    Ok(line)
}

/// Adds what is stated of a fault of this kind, of which `clap` says this text.
fn push_fault(
    line: &mut String,
    kind: ErrorKind,
    text: &str,
    called: Called,
) -> Result<(), AllocError> {
    let said = said_first(text);
    line.push_str(without_digits(said))?;
    if is_number_wanted(said) {
        line.push_str(number_hint(said))?;
    }
    push_tip(line, text)?;
    if called == Called::Program {
        push_matches(line, said, &OWNERS)?;
    }
    if is_unknown_command(kind, said) {
        push_matches(line, said, &LIKE_OTHERS)?;
        line.push_str(COMMANDS)?;
    } else if is_file_like(kind, said) {
        line.push_str(stream_hint(called))?;
    }
    if is_missing(kind) {
        push_options(line, text)?;
    }
    Ok(())
}

/// The first line of the text, without its first word.
fn said_first(text: &str) -> &str {
    let line = match text.lines().next() {
        Some(line) => line,
        None => "",
    };
    match line.strip_prefix("error: ") {
        Some(rest) => rest,
        None => line,
    }
}

fn is_memory(kind: ErrorKind) -> bool {
    matches!(kind, ErrorKind::OutOfMemory)
}

fn is_missing(kind: ErrorKind) -> bool {
    matches!(kind, ErrorKind::MissingRequiredArgument)
}

/// How `clap` ends its line on a value that is no number.
const NO_DIGITS: &str = "invalid digit found in string";

fn is_number_wanted(said: &str) -> bool {
    said.ends_with(NO_DIGITS)
}

/// What is stated of a value, without what is stated of its digits.
fn without_digits(said: &str) -> &str {
    match said.strip_suffix(NO_DIGITS) {
        Some(front) => front,
        None => said,
    }
}

/// What is wanted in place of a value that is no number.
fn number_hint(said: &str) -> &'static str {
    if said.contains("'--file <N>'") {
        "a number is wanted, from 0: r10 files < IMAGE prints the numbers of its files"
    } else {
        "a number is wanted"
    }
}

/// Whether the first word is no command, and does not look like a file.
fn is_unknown_command(kind: ErrorKind, said: &str) -> bool {
    matches!(kind, ErrorKind::InvalidSubcommand) && !said.contains('.') && !said.contains('/')
}

/// Words that other programs have, each with the command that does the same here.
const LIKE_OTHERS: [(&str, &str); 8] = [
    ("'ls'", "; the nearest is 'files'"),
    ("'list'", "; the nearest is 'files'"),
    ("'dir'", "; the nearest is 'files'"),
    ("'cat'", "; the nearest is 'play'"),
    ("'dump'", "; the nearest is 'play'"),
    ("'verify'", "; the nearest is 'check'"),
    ("'record'", "; the nearest is 'sim'"),
    ("'mkfs'", "; the nearest is 'format'"),
];

/// The commands, for a word that is none of them.
const COMMANDS: &str = "; the commands are sim, run, format, files, play, check and help";

/// The options, each with the command that it goes after.
const OWNERS: [(&str, &str); 8] = [
    (
        "argument '--image'",
        "; it goes after sim or run: r10 sim --image < SCRIPT > IMAGE",
    ),
    (
        "argument '--file'",
        "; it goes after play: r10 play --file <N> < IMAGE",
    ),
    (
        "argument '--channel'",
        "; it goes after play: r10 play --channel <N> < IMAGE",
    ),
    (
        "argument '--from'",
        "; it goes after play: r10 play --from <N> < IMAGE",
    ),
    (
        "argument '--to'",
        "; it goes after play: r10 play --to <N> < IMAGE",
    ),
    ("argument '--blocks'", "; it goes after format"),
    ("argument '--directory'", "; it goes after format"),
    ("argument '--volume'", "; it goes after format"),
];

/// Adds what goes with each of these words that is stated.
fn push_matches(line: &mut String, said: &str, table: &[(&str, &str)]) -> Result<(), AllocError> {
    for (word, hint) in table {
        if said.contains(*word) {
            line.push_str(hint)?;
        }
    }
    Ok(())
}

/// Adds the words that `clap` finds alike.
fn push_tip(line: &mut String, text: &str) -> Result<(), AllocError> {
    for part in text.lines() {
        if let Some(tip) = part.trim_start().strip_prefix("tip: ") {
            if tip.contains(" similar ") {
                line.push_str("; ")?;
                line.push_str(tip)?;
            }
        }
    }
    Ok(())
}

/// Adds the lines of the text that are options.
fn push_options(line: &mut String, text: &str) -> Result<(), AllocError> {
    for part in text.lines() {
        if part.starts_with("  --") {
            line.push_str(" ")?;
            line.push_str(part.trim_start())?;
        }
    }
    Ok(())
}

/// Whether a word was not taken that is no option.
fn is_file_like(kind: ErrorKind, said: &str) -> bool {
    match kind {
        ErrorKind::InvalidSubcommand => true,
        ErrorKind::UnknownArgument => !said.starts_with("unexpected argument '-"),
        _ => false,
    }
}
