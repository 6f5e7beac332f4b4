// What was read from a slot.

/// What a slot holds: its number in sequence, the first block of each sector in it, and the sectors' blocks, end to end.
#[derive(Drop)]
pub struct Stored {
    pub number: u64,
    pub firsts: Vec<usize>,
    pub blocks: Vec<[u8; 512]>,
}
