//! The options of a command among its words, each with its value.

ghost use Rattle.std.specs.Prelude.{◌≡◌, ◌<◌, ◌↔◌, ℕ, List, IsTrue, IfOk, IfSome, length, map, string_bytes};
ghost use Rattle.std.specs.List.{Contains};
ghost use Rattle.r10_arguments.specs.Options.{BeginsWithOptions, GivesOption, HasOnlyOptions, IsLeftOut, OptionWords};
ghost use Rattle.r10_arguments.specs.Words.{format_options, play_options};
ghost use Rattle.r10_arguments.specs.FoundOptions.{IsFrontOption, found_words};

use std::alloc::{AllocError, Global};

/// An option and its value.
#[derive(Clone, Copy)]
pub(crate) struct FoundOption<'a> {
    option: &'a str,
    value: &'a str,
    /// Whether they stand in one word, with `=` between them.
    is_joined: bool,
}

/// An option at the front of some words, and the words after it.
#[derive(Clone, Copy)]
struct FirstOption<'a> {
    found: FoundOption<'a>,
    rest: &'a [String],
}

/// The options at the front of some words, and the words after them.
#[derive(Drop)]
pub(crate) struct FrontOptions<'a> {
    pub(crate) given: Vec<FoundOption<'a>>,
    pub(crate) rest: &'a [String],
}

/// The options at the front of the words, as far as they are known ones that have values.
pub(crate) fn front_options<'a>(
    alloc: Global,
    words: &'a [String],
    known: &[&str],
) -> Result<FrontOptions<'a>, AllocError>
    ensures { IfOk result (λ front. BeginsWithOptions (map (λ k. k.now) known.now) (map string_bytes words.now)
        (map found_words front.given.items) (map string_bytes front.rest.now)) }
{
    let mut given = Vec::new(alloc);
    let mut rest = words;
    while let Some(first) = first_option(rest, known) {
        given.push(first.found)?;
        rest = first.rest;
    }
    Ok(FrontOptions { given, rest })
}

/// The option at the front of the words, if it is a known one and has a value.
fn first_option<'a>(words: &'a [String], known: &[&str]) -> Option<FirstOption<'a>>
    ensures stands { IfSome result (λ first. IsFrontOption (map (λ k. k.now) known.now) (map string_bytes words.now) first.found
        (map string_bytes first.rest.now)) }
    ensures shorter { IfSome result (λ first. length first.rest.now < length words.now) }
{
    let [word, rest @ ..] = words else {
        return None;
    };
    if let Some((option, value)) = word.as_str().split_once("=") {
        let found = FoundOption {
            option,
            value,
            is_joined: true,
        };
        return known_option(found, rest, known);
    }
    let [value, rest @ ..] = rest else {
        return None;
    };
    let found = FoundOption {
        option: word.as_str(),
        value: value.as_str(),
        is_joined: false,
    };
    known_option(found, rest, known)
}

/// The option before these words, if it is a known one.
fn known_option<'a>(
    found: FoundOption<'a>,
    rest: &'a [String],
    known: &[&str],
) -> Option<FirstOption<'a>>
    ensures same { IfSome result (λ first. first.found ≡ found.entry) }
    ensures rest { IfSome result (λ first. first.rest.now ≡ rest.entry.now) }
    ensures known { IfSome result (λ first. Contains (map (λ k. k.now) known.now) found.entry.option.now) }
{
    if is_one_of(found.option, known) {
        Some(FirstOption { found, rest })
    } else {
        None
    }
}

/// Whether the text is one of these.
pub(crate) fn is_one_of(text: &str, texts: &[&str]) -> bool
    ensures { IsTrue result → Contains (map (λ t. t.now) texts.now) text.now }
{
    for t in texts {
        if *t == text {
            return true;
        }
    }
    false
}

/// Whether an option stands once, with this value.
pub(crate) fn gives_option(given: &[FoundOption<'_>], option: &str, value: &str) -> bool
    ensures { IsTrue result ↔ GivesOption (map found_words given.now) option.now value.now }
{
    match given {
        [] => false,
        [first, rest @ ..] => {
            if first.option == option {
                first.value == value && is_left_out(rest, option)
            } else {
                gives_option(rest, option, value)
            }
        }
    }
}

/// Whether an option does not stand there.
pub(crate) fn is_left_out(given: &[FoundOption<'_>], option: &str) -> bool
    ensures { IsTrue result ↔ IsLeftOut (map found_words given.now) option.now }
{
    match given {
        [] => true,
        [first, rest @ ..] => {
            if first.option == option {
                false
            } else {
                is_left_out(rest, option)
            }
        }
    }
}

/// The words after a command tell in one way alone which options are given: what is read of them is what they say.
pub fn options_are_told()
    ensures format { (words : List (List ℕ)) (given other : List OptionWords) → HasOnlyOptions format_options words given
        → HasOnlyOptions format_options words other → given ≡ other }
    ensures play { (words : List (List ℕ)) (given other : List OptionWords) → HasOnlyOptions play_options words given
        → HasOnlyOptions play_options words other → given ≡ other }
{}
