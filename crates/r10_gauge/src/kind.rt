//! How the triples of a gauge are read, and what is known of the list of them.

ghost use Rattle.std.specs.Prelude.{◌≡◌};

use r10_body::Glance;

/// A kind of gauge: what is known of all that is published at one, the three zeros of its making first.
pub trait GaugeKind {
    ghost use Rattle.std.specs.Prelude.{List};
    ghost use Rattle.r10_body.specs.declared.refusal.Glance.{Glance as Triple};
    ghost use Rattle.r10_gauge.specs.Published.{nothing_published};

    /// So is each list that is published.
    ghost keeps: { List Triple → Type 0 };

    /// A law: so are the three zeros.
    ghost begins: { keeps nothing_published };
}

/// The publications of a recorder: each triple is their number, a file's number, and how many of its bytes are shown.
#[derive(Clone, Copy)]
pub struct Commits;

impl GaugeKind for Commits {
    ghost use Rattle.r10_gauge.specs.Published.{AreNumbered};
    ghost use Rattle.r10_gauge.specs.Laws.{zeros_are_numbered};

    ghost keeps = { AreNumbered };

    ghost begins = { zeros_are_numbered };
}

/// The levels of a lane, as its sender sees them. Of what is published nothing is known but that it is.
#[derive(Clone, Copy)]
pub struct Levels;

impl GaugeKind for Levels {
    ghost use Rattle.std.specs.Prelude.{⊤};

    ghost keeps = { λ published. ⊤ };

    ghost begins = { tt };
}

/// How many messages a lane's sender sent and lost, each up to `u64::MAX`, and how many of those that it sent were not taken yet
/// when it last looked.
#[derive(Clone, Copy, Default)]
pub struct Level {
    pub sent: u64,
    pub lost: u64,
    pub waiting: u64,
}

impl Level {
    /// The level that a triple is.
    pub fn of(triple: Glance) -> Level
        ensures { result ≡ record { sent = triple.commits; lost = triple.file; waiting = triple.bytes } }
    {
        Level {
            sent: triple.commits,
            lost: triple.file,
            waiting: triple.bytes,
        }
    }
}
