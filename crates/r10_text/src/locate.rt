//! The line where a person finds a key or a table of a script.

use crate::fault::Place;

/// The line of a key or a table, as `line_of` says it, in a text that may not be UTF-8.
pub fn line_in(text: &[u8], place: Place, key: &str) -> Option<usize> {
    match str::from_utf8(text) {
        Ok(text) => line_of(text, place, key),
        Err(_) => None,
    }
}

/// The line, from 1, of this key in the table at this place, or else of the table's head. None where the text has neither in a
/// line of its own.
fn line_of(text: &str, place: Place, key: &str) -> Option<usize> {
    let (name, wanted) = match place {
        Place::Text => return None,
        Place::Top => (key, 1),
        Place::Channel(number) => ("channel", number),
        Place::Step(number) => ("step", number),
        Place::Feed(number) => ("feed", number),
        Place::Item { feed, .. } => ("feed", feed),
        Place::Order(number) => ("order", number),
        Place::Reader(number) => ("reader", number),
    };
    let key = if let Place::Item { .. } = place {
        "items"
    } else {
        key
    };
    let mut inside = place == Place::Top;
    let mut number = 0usize;
    let mut heads = 0usize;
    let mut found = None;
    for line in text.lines() {
        number = number.saturating_add(1);
        if let Some(head) = head_of(line) {
            if found.is_some() {
                break;
            }
            if head == name {
                heads = heads.saturating_add(1);
            }
            inside = head == name && heads == wanted;
            if inside {
                found = Some(number);
            }
        } else if inside && has_key(line, key) {
            return Some(number);
        }
    }
    found
}

/// The name in the line of an array table's head.
fn head_of(line: &str) -> Option<&str> {
    let behind = line.trim().strip_prefix("[[")?;
    let (name, _) = behind.split_once("]]")?;
    Some(name.trim())
}

/// Whether the line gives the key a value.
fn has_key(line: &str, key: &str) -> bool {
    match line.split_once('=') {
        Some((front, _)) => front.trim() == key,
        None => false,
    }
}
