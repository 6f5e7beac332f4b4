//! Index packets and loss reports, which a file has beside its messages: a body is written as exactly the bytes of its fields, and
//! read as exactly the fields that this recorder writes so, as another recorder's index, or as no body.
#![tactic(auto)]

mod entry;
mod loss;
mod node;
mod opaque;
mod root;

pub use entry::{NodeEntry, RootEntry};
pub use loss::LossBody;
pub use node::NodeBody;
pub use opaque::is_opaque;
pub use root::RootBody;
