//! Sources with the lines of their channels.

ghost use Rattle.std.specs.Prelude.{◌≡◌, ◌++◌, [], ◌∷◌, None, Some, IsSomeAnd};
ghost use Rattle.r10_held.specs.Naming.{ring_for};
ghost use Rattle.r10_shared.specs.Levels.{level_of};

use crate::line::ChannelPort;
use crate::source::{AnySource, Tally};
use r10_gauge::{Gauge, Levels};
use r10_held::Rings;
use r10_port::Port;
use std::sync::Wait;

/// A source that waits for its worker, with its channel's line; and once it has run, the line, and what became of its messages. It
/// may have a gauge, at which any thread sees the level of its lane while it runs.
pub struct Feed<N: Rings> {
    pub(crate) source: Option<AnySource>,
    pub(crate) line: ChannelPort<N>,
    pub(crate) tally: Tally,
    pub(crate) gauge: Option<Gauge<Levels>>,
}

/// Letting it go is one call, so that a body that holds one has one exit for it.
impl<N: Rings> Drop for Feed<N> {
    fn drop(self) {
        let Feed {
            source: _,
            line: _,
            tally: _,
            gauge: _,
        } = self;
    }
}

impl<N: Rings> Feed<N> {
    /// A feed that waits for its worker: nothing of its source is sent yet, and it has no gauge. The port has to be the sending
    /// end of the ring which `N` names for the channel.
    pub fn new(channel: u16, source: AnySource, port: Port) -> Feed<N>
        requires { ring_for channel N.rings ≡ Some port.ring }
        ensures line { result.line ≡ record { channel = channel; port = port } }
        ensures source { IsSomeAnd result.source (λ s. rest s ≡ rest source) }
        ensures tally { result.tally ≡ record { accepted = 0; refused = 0 } }
        ensures gauge { result.gauge ≡ None }
    {
        Feed {
            source: Some(source),
            line: ChannelPort::new(channel, port),
            tally: Tally::default(),
            gauge: None,
        }
    }

    /// The same line with another source, for a further session of the same cabinet. What was sent on the line stays sent, and
    /// counts in the end's report; the messages that were refused are counted anew.
    pub fn again(self, source: AnySource) -> Feed<N>
        ensures line { result.line ≡ self.line }
        ensures source { IsSomeAnd result.source (λ s. rest s ≡ rest source) }
        ensures tally { result.tally ≡ record { accepted = 0; refused = 0 } }
        ensures gauge { result.gauge ≡ self.gauge }
    {
        let Feed {
            source: _,
            line,
            tally: _,
            gauge,
        } = self;
        Feed {
            source: Some(source),
            line,
            tally: Tally::default(),
            gauge,
        }
    }

    /// The same feed with this gauge, at which it shows its lane's level now, and then after each turn that sent or lost a message.
    /// A feed has one gauge: the one that it had is gone.
    pub fn with_gauge<R: Wait>(self, rt: &R, gauge: Gauge<Levels>) -> Feed<N>
        ensures line { result.line ≡ self.line }
        ensures source { result.source ≡ self.source }
        ensures tally { result.tally ≡ self.tally }
        ensures gauge { IsSomeAnd result.gauge (λ g. (g.cell ≡ gauge.cell)
            × (g.published ≡ gauge.published ++ level_of self.line.port ∷ [])) }
    {
        let Feed {
            source,
            line,
            tally,
            gauge: _,
        } = self;
        let mut gauge = Some(gauge);
        line.show(rt, &mut gauge);
        Feed {
            source,
            line,
            tally,
            gauge,
        }
    }

    /// How many messages of the source the last session sent, and how many the lane had no room for.
    pub fn tally(&self) -> Tally
        ensures { result ≡ self.now.tally }
    {
        self.tally
    }
}
