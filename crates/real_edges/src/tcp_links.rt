// Links over sockets of this machine. A packet is sent and taken whole; a link that failed is closed, since its other
// end would read what follows at a wrong place, and all its later calls fail.
ghost use Rattle.std.specs.Prelude.{◌≡◌, ◌≤◌, None, length, IsErrOf, IfOk, OnOk, OnErr};
ghost use Rattle.mix_base.specs.Faults.{Rose, one_more};
ghost use Rattle.mix_links.specs.Links.{EndsShort, IsFailed};

use crate::transfers::{read_whole, write_whole};
use mix_base::Failed;
use mix_links::{Arrived, LineFailed, LinkIn, LinkOut, Net};
use std::alloc::Global;
use std::marker::Model;
use std::net::{Ipv4Addr, OpenListener, OpenStream, Shutdown, SocketAddr, SocketAddrV4};
use std::{io, net};

/// The end of a connection at which packets arrive. It tells nothing.
#[derive(Drop)]
pub struct TcpIn<'a, H: net::Net> {
    rt: &'a H,
    stream: Option<H::Stream>,
    faults: u64,
}

impl<'a, H: net::Net> Model for TcpIn<'a, H> {
    ghost use Rattle.mix_links.specs.Objects.{EndState};

    ghost Value = { EndState };

    ghost view = { λ l. record { faults = l.faults } };
}

impl<'a, H: net::Net> LinkIn for TcpIn<'a, H> {
    ghost left = { λ _. None };

    ghost faults = { λ link. link.faults };

    /// Waits for a packet, or for the end. The bytes that the end cuts off are told once.
    fn next_packet(&mut self, buf: &mut [u8]) -> Arrived
        ensures short { EndsShort result (length buf.old) }
        ensures failed { IsFailed result → Rose self.old.faults self.new.faults }
        ensures count { self.old.faults ≤ self.new.faults }
        ensures one { IsFailed result → self.new.faults ≡ one_more self.old.faults }
        ensures no_fault { (¬ IsFailed result) → self.new.faults ≡ self.old.faults }
    {
        let came = match &mut self.stream {
            Some(stream) => read_whole(stream, buf),
            None => Err(closed()),
        };
        match came {
            Ok(count) if count == buf.len() => Arrived::Packet,
            Ok(count) => Arrived::End { cut: count },
            Err(_) => {
                self.stream = None;
                self.faults = self.faults.saturating_add(1);
                Arrived::Failed
            }
        }
    }
}

/// The end of a connection to which packets are given. It tells nothing.
#[derive(Drop)]
pub struct TcpOut<'a, H: net::Net> {
    rt: &'a H,
    stream: Option<H::Stream>,
    faults: u64,
}

impl<'a, H: net::Net> Model for TcpOut<'a, H> {
    ghost use Rattle.mix_links.specs.Objects.{EndState};

    ghost Value = { EndState };

    ghost view = { λ l. record { faults = l.faults } };
}

impl<'a, H: net::Net> TcpOut<'a, H> {
    // What a call of the system came to: a link that failed is closed, and its fault counted.
    fn answer(&mut self, came: io::Result<()>) -> Result<(), Failed>
        ensures failed { OnErr result (Rose self.old.faults self.new.faults) }
        ensures count { self.old.faults ≤ self.new.faults }
        ensures one { OnErr result (self.new.faults ≡ one_more self.old.faults) }
        ensures no_fault { OnOk result (self.new.faults ≡ self.old.faults) }
    {
        match came {
            Ok(()) => Ok(()),
            Err(_) => {
                self.stream = None;
                self.faults = self.faults.saturating_add(1);
                Err(Failed)
            }
        }
    }
}

impl<'a, H: net::Net> LinkOut for TcpOut<'a, H> {
    ghost given = { λ _. None };

    ghost faults = { λ link. link.faults };

    /// It may wait until its other end has taken what came before.
    fn send(&mut self, packet: &[u8]) -> Result<(), Failed>
        ensures failed { OnErr result (Rose self.old.faults self.new.faults) }
        ensures count { self.old.faults ≤ self.new.faults }
        ensures one { OnErr result (self.new.faults ≡ one_more self.old.faults) }
        ensures no_fault { OnOk result (self.new.faults ≡ self.old.faults) }
    {
        let came = match &mut self.stream {
            Some(stream) => write_whole(stream, packet),
            None => Err(closed()),
        };
        self.answer(came)
    }

    /// Shuts the sending side down.
    fn finish(&mut self) -> Result<(), Failed>
        ensures failed { OnErr result (Rose self.old.faults self.new.faults) }
        ensures count { self.old.faults ≤ self.new.faults }
        ensures one { OnErr result (self.new.faults ≡ one_more self.old.faults) }
        ensures no_fault { OnOk result (self.new.faults ≡ self.old.faults) }
    {
        let came = match &mut self.stream {
            Some(stream) => stream.shutdown(Shutdown::Write),
            None => Err(closed()),
        };
        self.answer(came)
    }
}

/// Makes lines over sockets on 127.0.0.1.
#[derive(Drop)]
pub struct TcpNet<'a, H: net::Net> {
    rt: &'a H,
    faults: u64,
}

impl<'a, H: net::Net> Model for TcpNet<'a, H> {
    ghost use Rattle.mix_links.specs.Objects.{EndState};

    ghost Value = { EndState };

    ghost view = { λ l. record { faults = l.faults } };
}

impl<'a, H: net::Net> TcpNet<'a, H> {
    /// Has made no line.
    pub fn new(rt: &'a H) -> TcpNet<'a, H>
        ensures { result.faults ≡ 0 }
    {
        TcpNet { rt, faults: 0 }
    }
}

impl<'a, H: net::Net + Sync> Net for TcpNet<'a, H>
where
    H::Stream: Send,
{
    type Into = TcpIn<'a, H>;

    type Onto = TcpOut<'a, H>;

    ghost faults = { λ net. net.faults };

    fn line(&mut self, _alloc: Global) -> Result<(TcpOut<'a, H>, TcpIn<'a, H>), LineFailed>
        ensures failed { IsErrOf result LineFailed.Failed → Rose self.old.faults self.new.faults }
        ensures count { self.old.faults ≤ self.new.faults }
        ensures one { IsErrOf result LineFailed.Failed →
            self.new.faults ≡ one_more self.old.faults }
        ensures no_fault { (¬ IsErrOf result LineFailed.Failed) →
            self.new.faults ≡ self.old.faults }
        ensures new { IfOk result (λ line. (line.0.faults ≡ 0) × (line.1.faults ≡ 0)) }
    {
        match connected(self.rt) {
            Ok((onto, into)) => Ok((
                TcpOut {
                    rt: self.rt,
                    stream: Some(onto),
                    faults: 0,
                },
                TcpIn {
                    rt: self.rt,
                    stream: Some(into),
                    faults: 0,
                },
            )),
            Err(_) => {
                self.faults = self.faults.saturating_add(1);
                Err(LineFailed::Failed)
            }
        }
    }
}

// The two ends of a new connection on 127.0.0.1. One that a stranger made in between is refused.
fn connected<H: net::Net>(rt: &H) -> io::Result<(H::Stream, H::Stream)> {
    let any_port = SocketAddr::V4(SocketAddrV4::new(Ipv4Addr::LOCALHOST, 0));
    let listener = rt.bind(any_port)?;
    let onto = rt.connect(listener.local_addr()?)?;
    let (into, peer) = listener.accept()?;
    if peer != onto.local_addr()? {
        return Err(closed());
    }
    onto.set_nodelay(true)?;
    Ok((onto, into))
}

fn closed() -> io::Error {
    io::Error::from(io::ErrorKind::NotConnected)
}
