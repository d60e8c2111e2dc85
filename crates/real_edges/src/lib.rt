// The thin edge: a disk over three files, links over sockets of this machine, the system's clock and the standard
// streams, each by the trait that its caller speaks of. They tell contracts nothing of what they carry, and count each
// of their failures.
#![tactic(auto)]

mod area_files;
mod file_rack;
mod streams;
mod system_clock;
mod tcp_links;
#[cfg(test)]
mod tests;
mod transfers;

pub use file_rack::FileRack;
pub use streams::{StdErr, StdSink, StdSource};
pub use system_clock::SystemClock;
pub use tcp_links::{TcpIn, TcpNet, TcpOut};
