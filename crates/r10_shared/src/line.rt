//! A channel with the sending end of its lane.

ghost use Rattle.std.specs.Prelude.{◌≡◌, ◌-◌, ◌++◌, [], ◌∷◌, Some, length, take, vec_capacity};
ghost use Rattle.r10_machine.specs.Machine.{saturated};
ghost use Rattle.r10_port.specs.Ends.{TookReceived, sent, unreceived};
ghost use Rattle.r10_shared.specs.Feeding.{FedUntil};
ghost use Rattle.r10_shared.specs.Levels.{FedShowing, GrewBy, level_of};
ghost use Rattle.r10_held.specs.Naming.{ring_for};

use crate::gate::Gate;
use crate::source::{AnySource, Tally, feed_port, show_level};
use crate::stop::Stop;
use crate::waiting::Progress;
use r10_body::Sample;
use r10_gauge::{Gauge, Levels};
use r10_held::Rings;
use r10_port::{Outlet, Port};
use std::marker::{Model, PhantomData};
use std::sync::Wait;

/// A channel, with the sending end of its lane: that of the ring which `N` names for the channel. Contracts see both.
#[derive(Drop)]
pub struct ChannelPort<N: Rings> {
    channel: u16,
    port: Port,
    of: PhantomData<N>,
}

impl<N: Rings> Model for ChannelPort<N> {
    ghost use Rattle.std.specs.Prelude.{◌≡◌, Some};
    ghost use Rattle.r10_held.specs.Naming.{ring_for};
    ghost use Rattle.r10_shared.specs.Naming.{SendingLine};

    ghost Value = { SendingLine };

    ghost view = { λ l. record { channel = l.channel; port = l.port } };

    ghost invariant = { λ l. ring_for l.channel N.rings ≡ Some l.port.ring };
}

impl<N: Rings> ChannelPort<N> {
    /// The channel's line.
    pub(crate) fn new(channel: u16, port: Port) -> ChannelPort<N>
        requires { ring_for channel N.rings ≡ Some port.ring }
        ensures { result ≡ record { channel = channel; port = port } }
    {
        ChannelPort {
            channel,
            port,
            of: PhantomData,
        }
    }

    /// The channel.
    pub(crate) fn channel(&self) -> u16
        ensures { result ≡ self.now.channel }
    {
        self.channel
    }

    /// How many messages were sent, up to `u64::MAX`.
    pub(crate) fn sent(&self) -> u64
        ensures { result ≡ saturated (length (sent self.now.port)) }
    {
        self.port.sent()
    }

    /// How many messages were lost, up to `u64::MAX`.
    pub(crate) fn lost(&self) -> u64
        ensures { result ≡ self.now.port.lane.lost }
    {
        self.port.lost()
    }

    /// The ring of the sending end is the one that is named for the channel.
    pub(crate) fn is_named(&self)
        ensures { ring_for self.now.channel N.rings ≡ Some self.now.port.ring }
    {
        let _ = &self.port;
    }

    /// Passes the gate, and then offers to the port what the source gives, until the source ends or the stop is asked.
    pub(crate) fn feed<R: Wait, G: Gate, S: Stop>(
        &mut self,
        rt: &R,
        gate: &G,
        worker: usize,
        stop: &S,
        source: AnySource,
        gauge: &mut Option<Gauge<Levels>>,
        progress: &Progress,
    ) -> Tally
        ensures channel { self.new.channel ≡ self.old.channel }
        ensures fed { FedUntil (G.answers gate.now worker) (S.answers stop.now) (rest source) self.old.port self.new.port result }
        ensures shown { FedShowing (rest source) self.old.port self.new.port result gauge.old gauge.new }
    {
        feed_port(
            rt,
            gate,
            worker,
            stop,
            source,
            &mut self.port,
            gauge,
            progress,
        )
    }

    /// Shows the level of the lane at the gauge, if there is one.
    pub(crate) fn show<R: Wait>(&self, rt: &R, gauge: &mut Option<Gauge<Levels>>)
        ensures { GrewBy gauge.old gauge.new (level_of self.now.port ∷ []) }
    {
        show_level(rt, &self.port, gauge);
    }

    /// Moves what is left between the two ends after what `into` has, as much of it as `into` has room for. It takes no memory.
    pub(crate) fn drain(&mut self, outlet: &mut Outlet, into: &mut Vec<Sample>)
        requires { outlet.old.ring ≡ self.old.port.ring }
        ensures all { sent self.old.port ≡ outlet.old.received ++ unreceived outlet.old self.old.port }
        ensures spec { outlet.new.spec ≡ outlet.old.spec }
        ensures moved { into.new.items
            ≡ into.old.items ++ take (vec_capacity into.old - length into.old.items) (unreceived outlet.old self.old.port) }
    {
        outlet.rest_into(&mut self.port, into);
    }
}
