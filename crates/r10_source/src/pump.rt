//! The pump.

ghost use Rattle.std.specs.Prelude.{◌≡◌, ◌+◌, ◌<◌, ◌^◌, List};
ghost use Rattle.r10_source.specs.Given.{GivesNext};
ghost use Rattle.r10_source.specs.Pumps.{PumpsSource};
ghost use Rattle.r10_source.specs.declared.source.SourceItem.{SourceItem as TurnValue};

use crate::source::{ChannelSource, Given};
use r10_port::Port;

/// What a pump did: how many messages the port accepted and refused, and whether the source has ended.
#[derive(Clone, Copy, Debug, Default, PartialEq, Eq)]
pub struct Pumped {
    pub accepted: u64,
    pub refused: u64,
    pub ended: bool,
}

impl Pumped {
    /// Adds what one more turn did.
    fn add(&mut self, turn: Pumped)
        requires { (self.old.accepted + turn.accepted < 2 ^ 64) × (self.old.refused + turn.refused < 2 ^ 64) }
        ensures { self.new ≡ record {
          accepted = self.old.accepted + turn.accepted;
          refused = self.old.refused + turn.refused;
          ended = turn.ended;
        } }
    {
        self.accepted += turn.accepted;
        self.refused += turn.refused;
        self.ended = turn.ended;
    }
}

/// A source of any kind, that may go to another thread.
type AnySource = Box<dyn ChannelSource + Send>;

/// Offers what was given, if it is a message, or counts it, if it is a loss.
fn offer_given(given: Given, port: &mut Port) -> Pumped
    ensures { (before after : List TurnValue) → GivesNext given before after → PumpsSource 1 before after port.old port.new result }
{
    match given {
        Given::Item(count, message) => {
            let accepted = u64::from(port.offer(count, message).is_ok());
            Pumped {
                accepted,
                refused: 1 - accepted,
                ended: false,
            }
        }
        Given::Lost(lost) => {
            port.lose(lost);
            Pumped {
                accepted: 0,
                refused: 0,
                ended: false,
            }
        }
        Given::Later => Pumped::default(),
        Given::End => Pumped {
            ended: true,
            ..Pumped::default()
        },
    }
}

/// Makes one turn.
fn source_turn(source: &mut AnySource, port: &mut Port) -> Pumped
    ensures { PumpsSource 1 (rest source.old) (rest source.new) port.old port.new result }
{
    offer_given(source.next(), port)
}

/// Offers to the port what the source gives: one message or loss a turn, in so many turns, or until the source ends. A message that
/// the port refuses is gone.
///
/// This takes no memory but what the source takes.
pub fn pump_source(
    source: &mut Box<dyn ChannelSource + Send>,
    port: &mut Port,
    turns: u64,
) -> Pumped
    ensures { PumpsSource turns (rest source.old) (rest source.new) port.old port.new result }
{
    let mut pumped = Pumped::default();
    for _ in 0..turns {
        pumped.add(source_turn(source, port));
        if pumped.ended {
            break;
        }
    }
    pumped
}
