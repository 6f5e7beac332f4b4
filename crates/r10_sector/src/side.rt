// Which of the two slots.
ghost use Rattle.std.specs.Prelude.{◌≡◌};

/// Which of the two slots of a device.
#[derive(Clone, Copy, Debug, PartialEq, Eq)]
pub enum Side {
    One,
    Two,
}

impl Side {
    ghost use Rattle.r10_sector.specs.Sides.{opposite};

    /// The other one of the two.
    pub fn other(self) -> Side
        ensures { result ≡ opposite self }
    {
        match self {
            Side::One => Side::Two,
            Side::Two => Side::One,
        }
    }
}
