//! How many entries there are, and what they cost.

ghost use Rattle.std.specs.Prelude.{◌≡◌, ◌∷◌, [], ◌++◌, List};
ghost use Rattle.r10_body.specs.Cost.{owed};
ghost use Rattle.r10_body.specs.Packets.{Packet};
ghost use Rattle.r10_body.specs.Rules.{MayFollow, last_report};
ghost use Rattle.r10_packet_rules.specs.Facts.{AreFactsOf};
ghost use Rattle.r10_file_rules.specs.Totals.{AreTotals};

use r10_body::LOSS_COST;
use r10_indexbody::LossBody;
use r10_packet_rules::Facts;

#[derive(Clone, Copy)]
pub(crate) struct Totals {
    pub(crate) entries: u64,
    pub(crate) cost: u64,
}

impl Totals {
    /// Of no packets.
    pub(crate) fn new() -> Totals
        ensures { AreTotals result [] }
    {
        Totals {
            entries: 0,
            cost: 0,
        }
    }

    /// Adds a packet that may come next after what the last one reports.
    pub(crate) fn add(&mut self, facts: &Facts, report: Option<LossBody>)
        ensures { (packets : List Packet) (p : Packet) → AreTotals self.old packets → AreFactsOf facts.now p → MayFollow packets p
            → report ≡ last_report packets → AreTotals self.new (packets ++ p ∷ []) }
    {
        *self = Totals {
            entries: self.entries.saturating_add(facts.entries as u64),
            cost: self
                .cost
                .saturating_add(facts.cost)
                .saturating_add(cost_of(report)),
        };
    }
}

/// What a report adds to the cost of the entry after it.
fn cost_of(report: Option<LossBody>) -> u64
    ensures { result ≡ owed report }
{
    match report {
        Some(_) => LOSS_COST,
        None => 0,
    }
}
