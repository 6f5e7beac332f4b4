//! Sources of messages.

ghost use Rattle.std.specs.Prelude.{List};
ghost use Rattle.r10_source.specs.Given.{GivesNext};
ghost use Rattle.r10_source.specs.declared.source.SourceItem.{SourceItem as TurnValue};

use r10_body::{Message, Timed};
use r10_count::Count;

/// What a source has to give, one after the other.
#[derive(Drop)]
pub enum SourceItem {
    /// A message, with its count.
    Message(Timed),
    /// So many messages were lost before the next one.
    Lost(u64),
}

/// What a source gives in one turn.
#[derive(Drop)]
pub enum Given {
    /// The next message, with its count.
    Item(Count, Message),
    /// No message: so many were lost before the next one, as the source's own driver counts them.
    Lost(u64),
    /// Nothing yet. The source keeps what it has.
    Later,
    /// Nothing, since nothing is left.
    End,
}

/// Where a channel's messages come from.
///
/// A source that has no memory for its next message gives `Later` and keeps the message.
pub trait ChannelSource: Drop {
    /// What the source will still give.
    ghost rest: { Self → List TurnValue };

    /// One turn: the next message, or a loss before it, if there is one yet.
    fn next(&mut self) -> Given
        ensures { GivesNext result (rest self.old) (rest self.new) };
}
