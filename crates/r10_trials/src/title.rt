//! What a trial's first line asks for.

/// What is tried with a script. Its first steps may be done by a recorder that is gone when the rest begins.
#[derive(Clone, Copy)]
pub struct Task<'a> {
    /// The word for what is tried.
    pub act: &'a str,
    /// The calls, or the byte.
    pub number: u32,
    /// The place of a byte, and else 0.
    pub place: usize,
    /// How many steps are the first.
    pub first: usize,
}

/// What a title asks for: `NAME WORD NUMBER STEPS`, or `NAME WORD PLACE BYTE STEPS` for `spoils` and `judges`.
pub fn task_of(title: &str) -> Option<Task<'_>> {
    let (_, words) = title.split_once(' ')?;
    let (act, words) = words.split_once(' ')?;
    let (first, words) = words.split_once(' ')?;
    let first = number_of(first)?;
    match words.split_once(' ') {
        Some((byte, steps)) => Some(Task {
            act,
            number: number_of(byte)?,
            place: first as usize,
            first: number_of(steps)? as usize,
        }),
        None => Some(Task {
            act,
            number: first,
            place: 0,
            first: number_of(words)? as usize,
        }),
    }
}

/// The number that a word spells.
pub fn number_of(word: &str) -> Option<u32> {
    word.parse().ok()
}
