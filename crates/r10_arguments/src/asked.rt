//! What the words of a call ask for.

ghost use Rattle.std.specs.Prelude.{◌≡◌, ◌↔◌, ◌<◌, length, IsTrue, Ok, IfOk, IfSome, IfNone, codes, map, string_bytes};
ghost use Rattle.std.specs.Fmt.{decimal};
ghost use Rattle.std.specs.List.{Contains};
ghost use Rattle.r10_arguments.specs.FoundOptions.{found_words};
ghost use Rattle.r10_arguments.specs.Options.{GivesOption, GivesOr, HasOnlyOptions};
ghost use Rattle.r10_arguments.specs.Words.{AsksSim, AsksImage, AsksImageOf, AsksFiles, AsksCheck, AsksRun, AsksRunImage};
ghost use Rattle.r10_arguments.specs.Words.{AsksSession, AsksOnly, AsksCommand, AsksOther, AsksText, AsksHelpBehind, AsksHelpWord};
ghost use Rattle.r10_arguments.specs.Words.{GivesAll, GivesSelection, IsHelp, IsVersion, OptionsOfFormat, OptionsOfPlay};
ghost use Rattle.r10_arguments.specs.Words.{image_commands, numbers_fault, plain_commands, word_at};
ghost use Rattle.r10_arguments.specs.declared.asked.Asked.TheVariants.{Sim, Image, Files, Check};

use crate::options::{FoundOption, front_options, gives_option, is_left_out, is_one_of};
use crate::usage::{ASK_NOTHING, Called, called_by, help_hint, matches_of, usage_line};
use clap::ArgMatches;
use clap::error::ErrorKind;
use std::alloc::{AllocError, Global};
use thiserror::Error;

/// What the words of a call ask for.
#[derive(Drop)]
pub enum Asked {
    /// Run a script that is read from standard input.
    Sim,
    /// Run such a script, and write the image of its medium.
    Image,
    /// List the files of an image that is read from standard input.
    Files,
    /// Say the verdict on a recording that is read from standard input.
    Check,
    /// Print entries of an image that is read from standard input.
    Play(PlayWords),
    /// Write the image of a formatted medium.
    Format(FormatWords),
    /// Print this text: help, or the version.
    Text(String),
}

/// What a medium is to be formatted to. Whether it is within the limits is not asked here.
#[derive(Drop)]
pub struct FormatWords {
    /// The blocks of the medium.
    pub blocks: usize,
    /// The blocks reserved for the directory.
    pub directory: usize,
    /// The volume's name.
    pub volume: String,
}

/// Which entries are to be printed. Whether there are such is not asked here.
#[derive(Clone, Copy)]
pub struct PlayWords {
    /// The file's number, from 0.
    pub file: usize,
    /// The channel, or 0 for all.
    pub channel: u16,
    /// The first count.
    pub from: u64,
    /// The last count.
    pub to: u64,
}

/// The options of `format`, which must all be given.
const FORMAT_OPTIONS: [&str; 3] = ["--blocks", "--directory", "--volume"];

/// The options of `play`, which may all be left out.
const PLAY_OPTIONS: [&str; 4] = ["--file", "--channel", "--from", "--to"];

/// The commands without options that have values.
const PLAIN_COMMANDS: [&str; 4] = ["sim", "run", "files", "check"];

/// The commands that write a medium's image, if `--image` asks for that.
const IMAGE_COMMANDS: [&str; 2] = ["sim", "run"];

/// The commands that `help` explains.
const COMMANDS: [&str; 7] = ["format", "play", "help", "sim", "run", "files", "check"];

/// Where a call doesn't say the last count: the largest that 48 bits hold.
const LAST_COUNT: u64 = 281_474_976_710_655;

/// Why the words of a call ask for nothing.
#[derive(Debug, Drop, Error)]
pub enum WordsFault {
    /// A growth was refused. This says nothing of the words.
    #[error("out of memory")]
    Memory(#[from(alloc)] AllocError),
    /// The words are wrong, as this line says.
    #[error("{0}")]
    Wrong(String),
}

/// What the words ask for, the program's own name first: a run for no word after it or for `sim` alone, its medium for
/// `sim --image`, a list for `files` alone, a verdict for `check` alone, and else what the command line says.
pub fn read_words(alloc: Global, words: &[String]) -> Result<Asked, WordsFault>
    ensures sim { AsksSim (map string_bytes words.now) → result ≡ Ok Sim }
    ensures image { AsksImage (map string_bytes words.now) → result ≡ Ok Image }
    ensures files { AsksFiles (map string_bytes words.now) → result ≡ Ok Files }
    ensures check { AsksCheck (map string_bytes words.now) → result ≡ Ok Check }
    ensures other { (AsksSim (map string_bytes words.now) → ⊥) → (AsksImage (map string_bytes words.now) → ⊥)
        → (AsksFiles (map string_bytes words.now) → ⊥) → (AsksCheck (map string_bytes words.now) → ⊥)
        → IfOk result (AsksOther (map string_bytes words.now)) }
{
    if asks_sim(words) {
        return Ok(Asked::Sim);
    }
    if asks_image_of(words, "sim") {
        return Ok(Asked::Image);
    }
    if asks_only(words, "files") {
        return Ok(Asked::Files);
    }
    if asks_only(words, "check") {
        return Ok(Asked::Check);
    }
    read_other(alloc, words)
}

/// Whether the words ask for a session's lines: `run` alone after the program's own name. It starts threads, so it is none of
/// those that `read_words` reads.
pub fn asks_run(words: &[String]) -> bool
    ensures { IsTrue result ↔ AsksRun (map string_bytes words.now) }
{
    asks_only(words, "run")
}

/// Whether the words ask for the image that a session leaves: `run --image` alone after the program's own name.
fn asks_run_image(words: &[String]) -> bool
    ensures { IsTrue result ↔ AsksRunImage (map string_bytes words.now) }
{
    asks_image_of(words, "run")
}

/// Whether the words ask for a session: for its lines, or for the image that it leaves.
pub fn asks_session(words: &[String]) -> bool
    ensures { IsTrue result ↔ AsksSession (map string_bytes words.now) }
{
    asks_run(words) || asks_run_image(words)
}

fn asks_sim(words: &[String]) -> bool
    ensures { IsTrue result ↔ AsksSim (map string_bytes words.now) }
{
    match words {
        [] | [_] => true,
        [_, word] => word.as_str() == "sim",
        _ => false,
    }
}

/// Whether this command and `--image` are the two words after the program's own name.
fn asks_image_of(words: &[String], command: &str) -> bool
    ensures { IsTrue result ↔ AsksImageOf command.now (map string_bytes words.now) }
{
    match words {
        [_, word, option] => is_image_of(word, option, command),
        _ => false,
    }
}

fn is_image_of(word: &String, option: &String, command: &str) -> bool
    ensures { IsTrue result ↔ ((string_bytes word.now ≡ command.now) × (string_bytes option.now ≡ codes "--image")) }
{
    if word.as_str() == command {
        option.as_str() == "--image"
    } else {
        false
    }
}

/// Whether this command is the one word after the program's own name.
fn asks_only(words: &[String], command: &str) -> bool
    ensures { IsTrue result ↔ AsksOnly command.now (map string_bytes words.now) }
{
    match words {
        [_, word] => word.as_str() == command,
        _ => false,
    }
}

/// What words with options ask for.
fn read_other(alloc: Global, words: &[String]) -> Result<Asked, WordsFault>
    ensures { IfOk result (AsksOther (map string_bytes words.now)) }
{
    match matches_of(alloc, words) {
        Ok(matches) => read_matches(alloc, words, &matches),
        Err(error) => read_error(alloc, words, &error),
    }
}

/// What words ask for that `clap` answers itself, or refuses.
fn read_error(alloc: Global, words: &[String], error: &clap::Error) -> Result<Asked, WordsFault>
    ensures { IfOk result (AsksOther (map string_bytes words.now)) }
{
    match error.kind() {
        ErrorKind::OutOfMemory => Err(WordsFault::Memory(AllocError)),
        ErrorKind::DisplayHelp | ErrorKind::DisplayVersion => read_text(alloc, words, error),
        _ => Err(WordsFault::Wrong(usage_line(alloc, words)?)),
    }
}

/// The text of help, or of the version.
fn read_text(alloc: Global, words: &[String], error: &clap::Error) -> Result<Asked, WordsFault>
    ensures { IfOk result (AsksOther (map string_bytes words.now)) }
{
    if asks_text(alloc, words)? {
        Ok(Asked::Text(error.to_string(alloc)?))
    } else {
        Err(wrong(alloc, ASK_NOTHING, called_by(words)))
    }
}

fn read_matches(
    alloc: Global,
    words: &[String],
    matches: &ArgMatches<'_>,
) -> Result<Asked, WordsFault>
    ensures { IfOk result (AsksOther (map string_bytes words.now)) }
{
    if let Some(found) = matches.subcommand_matches("format") {
        return read_format(alloc, words, found);
    }
    match matches.subcommand_matches("play") {
        Some(found) => read_play(alloc, words, found),
        None => Err(wrong(alloc, ASK_NOTHING, Called::Program)),
    }
}

/// What the options of `format` say. They are looked up among the words once more, where nothing else may stand.
fn read_format(alloc: Global, words: &[String], found: &ArgMatches<'_>) -> Result<Asked, WordsFault>
    ensures { IfOk result (AsksOther (map string_bytes words.now)) }
{
    let Some(format) = format_words(alloc, found)? else {
        return Err(wrong(alloc, ASK_NOTHING, Called::Format));
    };
    match format_fault(alloc, words, &format)? {
        None => Ok(Asked::Format(format)),
        Some(line) => Err(wrong(alloc, line, Called::Format)),
    }
}

/// What is wrong with the options of `format`, if they do not say this, or something else stands there.
fn format_fault(
    alloc: Global,
    words: &[String],
    format: &FormatWords,
) -> Result<Option<&'static str>, AllocError>
    ensures none { IfOk result (λ fault. IfNone fault
        (AsksCommand (codes "format") (map string_bytes words.now) × GivesAll (map string_bytes words.now) format.now)) }
    ensures numbers { IfOk result (λ fault. IfSome fault
        (λ line. line.now ≡ numbers_fault → GivesAll (map string_bytes words.now) format.now → ⊥)) }
{
    let Some(given) = only_options(alloc, words, "format", &FORMAT_OPTIONS)? else {
        return Ok(Some(ASK_NOTHING));
    };
    if gives_all(alloc, given.as_slice(), format)? {
        Ok(None)
    } else {
        Ok(Some(NUMBERS))
    }
}

/// What `clap` found of the options of `format`.
fn format_words(alloc: Global, found: &ArgMatches<'_>) -> Result<Option<FormatWords>, AllocError> {
    let Some(blocks) = found.get_one::<usize>("blocks") else {
        return Ok(None);
    };
    let Some(directory) = found.get_one::<usize>("directory") else {
        return Ok(None);
    };
    let Some(volume) = found.get_str("volume") else {
        return Ok(None);
    };
    let volume = String::from_str(alloc, volume)?;
    Ok(Some(FormatWords {
        blocks,
        directory,
        volume,
    }))
}

/// What the options of `play` say, each looked up among the words once more, where nothing else may stand, and for those that are
/// left out what goes without saying: the first file, all its channels and all counts.
fn read_play(alloc: Global, words: &[String], found: &ArgMatches<'_>) -> Result<Asked, WordsFault>
    ensures { IfOk result (AsksOther (map string_bytes words.now)) }
{
    let play = play_words(found);
    match play_fault(alloc, words, &play)? {
        None => Ok(Asked::Play(play)),
        Some(line) => Err(wrong(alloc, line, Called::Play)),
    }
}

/// What is wrong with the options of `play`, if they do not say this, or something else stands there.
fn play_fault(
    alloc: Global,
    words: &[String],
    play: &PlayWords,
) -> Result<Option<&'static str>, AllocError>
    ensures none { IfOk result (λ fault. IfNone fault
        (AsksCommand (codes "play") (map string_bytes words.now) × GivesSelection (map string_bytes words.now) play.now)) }
    ensures numbers { IfOk result (λ fault. IfSome fault
        (λ line. line.now ≡ numbers_fault → GivesSelection (map string_bytes words.now) play.now → ⊥)) }
{
    let Some(given) = only_options(alloc, words, "play", &PLAY_OPTIONS)? else {
        return Ok(Some(ASK_NOTHING));
    };
    if gives_selection(alloc, given.as_slice(), play)? {
        Ok(None)
    } else {
        Ok(Some(NUMBERS))
    }
}

/// What `clap` found of the options of `play`.
fn play_words(found: &ArgMatches<'_>) -> PlayWords {
    PlayWords {
        file: found.get_one::<usize>("file").unwrap_or(0),
        channel: found.get_one::<u16>("channel").unwrap_or(0),
        from: found.get_one::<u64>("from").unwrap_or(0),
        to: found.get_one::<u64>("to").unwrap_or(LAST_COUNT),
    }
}

/// The options after the program's own name and this command, if nothing else stands there.
fn only_options<'a>(
    alloc: Global,
    words: &'a [String],
    command: &str,
    known: &[&str],
) -> Result<Option<Vec<FoundOption<'a>>>, AllocError>
    ensures { IfOk result (λ r. IfSome r (λ given. AsksCommand command.now (map string_bytes words.now)
        × HasOnlyOptions (map (λ k. k.now) known.now) (map string_bytes words.now) (map found_words given.items))) }
{
    let [_, word, behind @ ..] = words else {
        return Ok(None);
    };
    if word.as_str() != command {
        return Ok(None);
    }
    let front = front_options(alloc, behind, known)?;
    if front.rest.is_empty() {
        Ok(Some(front.given))
    } else {
        Ok(None)
    }
}

/// What is stated of numbers that are spelled otherwise.
const NUMBERS: &str = "a number has neither a sign nor zeros before it";

/// A fault with this line, and after it which help to see.
fn wrong(alloc: Global, line: &str, called: Called) -> WordsFault {
    match wrong_line(alloc, line, called) {
        Ok(line) => WordsFault::Wrong(line),
        Err(error) => WordsFault::Memory(error),
    }
}

fn wrong_line(alloc: Global, line: &str, called: Called) -> Result<String, AllocError> {
    let mut line = String::from_str(alloc, line)?;
    line.push_str(help_hint(called))?;
    Ok(line)
}

/// Whether this word stands at the place among them.
fn has_at(words: &[String], place: usize, text: &str) -> bool
    ensures { IsTrue result ↔ ((place < length words.now) × (word_at (map string_bytes words.now) place ≡ text.now)) }
{
    place < words.len() && words[place].as_str() == text
}

/// Whether the words ask for help or the version.
fn asks_text(alloc: Global, words: &[String]) -> Result<bool, AllocError>
    ensures { IfOk result (λ r. IsTrue r → AsksText (map string_bytes words.now)) }
{
    if asks_help_word(words) || is_version_at(words, 1) {
        return Ok(true);
    }
    if is_help_at(words, 1) || asks_help_of_plain(words) || asks_help_of_image(words) {
        return Ok(true);
    }
    if has_at(words, 1, "format") {
        return asks_help_behind(alloc, words, &FORMAT_OPTIONS);
    }
    if has_at(words, 1, "play") {
        return asks_help_behind(alloc, words, &PLAY_OPTIONS);
    }
    Ok(false)
}

/// Whether the words are `help`, alone or with a command.
fn asks_help_word(words: &[String]) -> bool
    ensures { IsTrue result → AsksHelpWord (map string_bytes words.now) }
{
    match words {
        [_, word] => word.as_str() == "help",
        [_, word, command] => { word.as_str() == "help" && is_one_of(command.as_str(), &COMMANDS) }
        _ => false,
    }
}

fn is_version_at(words: &[String], place: usize) -> bool
    ensures { IsTrue result ↔ IsVersion (word_at (map string_bytes words.now) place) }
{
    has_at(words, place, "-V") || has_at(words, place, "--version")
}

fn is_help_at(words: &[String], place: usize) -> bool
    ensures { IsTrue result ↔ IsHelp (word_at (map string_bytes words.now) place) }
{
    has_at(words, place, "-h") || has_at(words, place, "--help")
}

/// Whether help is asked for after a command without options that have values.
fn asks_help_of_plain(words: &[String]) -> bool
    ensures { IsTrue result
        → Contains plain_commands (word_at (map string_bytes words.now) 1) × IsHelp (word_at (map string_bytes words.now) 2) }
{
    match words {
        [_, word, ..] => is_one_of(word.as_str(), &PLAIN_COMMANDS) && is_help_at(words, 2),
        _ => false,
    }
}

/// Whether help is asked for after `sim --image` or `run --image`.
fn asks_help_of_image(words: &[String]) -> bool
    ensures { IsTrue result → Contains image_commands (word_at (map string_bytes words.now) 1)
        × (word_at (map string_bytes words.now) 2 ≡ codes "--image") × IsHelp (word_at (map string_bytes words.now) 3) }
{
    match words {
        [_, word, ..] => {
            is_one_of(word.as_str(), &IMAGE_COMMANDS)
                && has_at(words, 2, "--image")
                && is_help_at(words, 3)
        }
        _ => false,
    }
}

/// Whether help is asked for after options of a command that are known.
fn asks_help_behind(alloc: Global, words: &[String], known: &[&str]) -> Result<bool, AllocError>
    ensures { IfOk result (λ r. IsTrue r → AsksHelpBehind (map (λ k. k.now) known.now) (map string_bytes words.now)) }
{
    let [_, _, behind @ ..] = words else {
        return Ok(false);
    };
    let front = front_options(alloc, behind, known)?;
    Ok(is_help_at(front.rest, 0))
}

/// Whether the options give these values.
fn gives_all(
    alloc: Global,
    given: &[FoundOption<'_>],
    format: &FormatWords,
) -> Result<bool, AllocError>
    ensures { IfOk result (λ r. IsTrue r ↔ OptionsOfFormat (map found_words given.now) format.now) }
{
    if !gives_number(alloc, given, "--blocks", format.blocks)? {
        return Ok(false);
    }
    if !gives_number(alloc, given, "--directory", format.directory)? {
        return Ok(false);
    }
    Ok(gives_option(given, "--volume", format.volume.as_str()))
}

/// Whether the options give these values, or leave out those that go without saying.
fn gives_selection(
    alloc: Global,
    given: &[FoundOption<'_>],
    play: &PlayWords,
) -> Result<bool, AllocError>
    ensures { IfOk result (λ r. IsTrue r ↔ OptionsOfPlay (map found_words given.now) play.now) }
{
    if !gives_or(alloc, given, "--file", play.file as u64, 0)? {
        return Ok(false);
    }
    if !gives_or(alloc, given, "--channel", u64::from(play.channel), 0)? {
        return Ok(false);
    }
    if !gives_or(alloc, given, "--from", play.from, 0)? {
        return Ok(false);
    }
    gives_or(alloc, given, "--to", play.to, LAST_COUNT)
}

/// Whether an option gives this number, or is left out where the number goes without saying.
fn gives_or(
    alloc: Global,
    given: &[FoundOption<'_>],
    option: &str,
    number: u64,
    otherwise: u64,
) -> Result<bool, AllocError>
    ensures { IfOk result (λ r. IsTrue r ↔ GivesOr (map found_words given.now) option.now number otherwise) }
{
    if number == otherwise && is_left_out(given, option) {
        return Ok(true);
    }
    let text = format!(in alloc; "{number}")?;
    Ok(gives_option(given, option, text.as_str()))
}

fn gives_number(
    alloc: Global,
    given: &[FoundOption<'_>],
    option: &str,
    number: usize,
) -> Result<bool, AllocError>
    ensures { IfOk result (λ r. IsTrue r ↔ GivesOption (map found_words given.now) option.now (decimal number)) }
{
    let text = format!(in alloc; "{number}")?;
    Ok(gives_option(given, option, text.as_str()))
}
