//! The server's end of a conversation over a link: it answers each ask by the honest prover, or says
//! why it doesn't.
#![tactic(auto)]

mod line;
mod served;
mod serving;

pub use line::Line;
pub use served::{Ended, Served};
pub use serving::serve_link;
