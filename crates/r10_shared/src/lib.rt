//! A recorder between threads: workers that feed its lanes from sources, write, give orders and read, and what became of each
//! message.
#![tactic(auto)]

mod desk;
mod ending;
mod failing;
mod feed;
mod gate;
mod giving;
mod handing;
mod line;
mod order;
mod reader;
mod readers;
mod reading;
mod report;
mod room;
mod rounds;
mod running;
mod session;
mod sink;
mod source;
mod stop;
mod waiting;
mod watching;
mod working;
mod writing;

pub use ending::{end_held, end_session};
pub use failing::{NotEnded, end_failed_held, end_failed_session};
pub use feed::Feed;
pub use gate::{Gate, Open};
pub use giving::{Control, give};
pub use handing::Handing;
pub use line::ChannelPort;
pub use order::Order;
pub use r10_gauge::{Gauge, Level, Levels, Pass, Watch};
pub use r10_held::{
    Cabinet, Cursor, Gauged, Held, Instalment, Player, Recorder, Rings, Transcript,
    new_recorders_account_for_their_lanes,
};
pub use reading::Transcribing;
pub use report::{FeedReport, SessionReport, audit};
pub use rounds::{Recording, Round, Turn, go_round};
pub use session::{Session, run_session, run_session_handing, run_session_until};
pub use sink::Sink;
pub use source::{AnySource, Tally};
pub use stop::{Never, Stop, StopFlag};
pub use watching::{Watching, watch};
pub use writing::{Writing, write};
