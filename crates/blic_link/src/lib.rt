//! Links between a client and a server: what passes over them, and how many of their calls failed.
#![tactic(auto)]

mod acceptor;
mod dialer;
mod gate;
mod laws;
mod link;
mod mem_acceptor;
mod mem_dialer;
mod mem_link;
mod pieces;
mod sending;
mod sure;
mod tcp;

pub use acceptor::{Accepted, Acceptor, Listened};
pub use dialer::{Dialed, Dialer};
pub use gate::{Gate, OpenGate};
pub use laws::pace_law;
pub use link::{Link, Received, Sent};
pub use mem_acceptor::MemAcceptor;
pub use mem_dialer::MemDialer;
pub use mem_link::MemLink;
pub use sending::{LinkFault, send_all};
pub use sure::{SureAcceptor, SureLink};
pub use tcp::{TcpAcceptor, TcpDialer, TcpLink};

#[cfg(test)]
mod tests;
