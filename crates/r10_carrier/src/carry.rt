//! What carrying a sample came to.

ghost use Rattle.std.specs.Prelude.{◌≡◌, cond};

/// What a call came to.
#[derive(Clone, Copy)]
pub struct Carry {
    /// 0, or why nothing was carried: the number of a refusal
    pub number: u32,
    pub channel: u16,
    /// whether a sample was carried
    pub carried: bool,
}

impl Carry {
    /// What the offer answered: 0 where a sample was carried.
    pub fn offer_status(self) -> u32
        ensures { result ≡ cond self.carried 0 1 }
    {
        if self.carried { 0 } else { 1 }
    }
}
