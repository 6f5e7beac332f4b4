//! What a script has where something else is wanted, as it is stated in a fault.

use r10_text::KeyContent;
use std::alloc::{AllocError, Global};
use toml::Value;

/// How many characters of a word of a script are stated.
const MOST: usize = 60;

/// What is stated of a value.
pub fn found_of(alloc: Global, value: &Value) -> Result<KeyContent, AllocError> {
    if let Some(number) = value.as_integer() {
        return Ok(KeyContent::Number(number));
    }
    if let Some(truth) = value.as_bool() {
        return Ok(KeyContent::Truth(truth));
    }
    if let Some(text) = value.as_str() {
        return Ok(KeyContent::Text(cut(alloc, text)?));
    }
    Ok(KeyContent::Other(type_of(value)))
}

/// The type of a value that is no number, truth value or text.
fn type_of(value: &Value) -> &'static str {
    if value.is_array() {
        "an array"
    } else if value.is_table() {
        "a table"
    } else if value.is_float() {
        "a number with a point"
    } else {
        "a date or time"
    }
}

/// The first characters of a word.
pub fn cut(alloc: Global, word: &str) -> Result<String, AllocError> {
    let mut said = String::new(alloc);
    let mut room = MOST;
    for character in word.chars() {
        if room == 0 {
            break;
        }
        room -= 1;
        said.push(character)?;
    }
    Ok(said)
}

/// The words with a comma between each and the next.
pub fn comma_list(alloc: Global, words: &[&str]) -> Result<String, AllocError> {
    let mut said = String::new(alloc);
    for word in words {
        if !said.is_empty() {
            said.push_str(", ")?;
        }
        said.push_str(word)?;
    }
    Ok(said)
}
