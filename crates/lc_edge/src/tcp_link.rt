ghost use Rattle.std.specs.Prelude.{◌≡◌, ◌≤◌, ◌↔◌, [], None, length, OnErr, OnOk, IsErrOf};
ghost use Rattle.std.specs.declared.io.ErrorKind.TheVariants.{OutOfMemory};
ghost use Rattle.lc_io.specs.Counts.{Counts, HasCause};
ghost use Rattle.lc_world.specs.Link.{Exchanges, IsGet, IsHonestWith, Tells};
ghost use Rattle.lc_world.specs.declared.link.LinkFail.TheVariants.{Failed, NoMemory as WantOfMemory};
ghost use Rattle.connection_uri.specs.Base.{BaseParts};
ghost use Rattle.lc_world.specs.Sides.Side.{Side};

use crate::authority::host_and_port;
use crate::bounded::read_at_most;
use lc_world::{Link, LinkFail};
use std::alloc::Global;
use std::io::{self, ErrorKind, Write};
use std::marker::Model;
use std::net::{Net, OpenStream, TcpStream, ToSocketAddrs};
use std::time::Duration;

/// The largest reply that is read, in bytes.
const MOST_BYTES: usize = 1 << 28;

/// How long one address is waited for until it has connected, at most, in seconds.
const CONNECT_WAIT: u64 = 10;

/// How long one read or write waits, at most, in seconds.
const ONE_WAIT: u64 = 30;

/// A link over the system's sockets. Each exchange has a connection of its own, to the port 80 where the authority says none. Each address
/// of the host is tried in turn, for 10 seconds at most. A read or a write waits 30 seconds at most, the reply ends with the connection, and
/// one above 268,435,456 bytes is a fault. It records nothing, and leaves an answer that is handed on as it is.
#[derive(Drop)]
pub struct TcpLink<'a, R: Net> {
    rt: &'a R,
    faults: u64,
}

impl<'a, R: Net> Model for TcpLink<'a, R> {
    ghost use Rattle.lc_edge.specs.TcpLink.{TcpLinkState};

    ghost Value = { TcpLinkState };

    ghost view = { λ l. record { faults = l.faults } };
}

impl<'a, R: Net> TcpLink<'a, R> {
    /// A link by which nothing was asked.
    pub fn new(rt: &'a R) -> TcpLink<'a, R>
        ensures { result ≡ record { faults = 0 } }
    {
        TcpLink { rt, faults: 0 }
    }
}

impl<R: Net> Link for TcpLink<'_, R> {
    ghost use Rattle.std.specs.Prelude.{None};
    ghost use Rattle.lc_edge.specs.TcpLink.{seen_of};

    ghost behind = { λ _. None };

    ghost seen = { seen_of };

    fn exchange(
        &mut self,
        _: Global,
        authority: &str,
        request: &[u8],
        reply: &mut Vec<u8>,
    ) -> Result<(), LinkFail>
        ensures at_most { OnOk result (length reply.new.items ≤ MOST_BYTES) }
        ensures each_fault { Counts self.old.faults self.new.faults (IsErrOf result Failed) }
        ensures honest { (base : BaseParts) (side : Side) → IsGet request.now → IsHonestWith (seen_of self.old) base side
            → Exchanges (seen_of self.old) (seen_of self.new) base side request.now reply.new.items result }
        ensures recorded { Tells None None authority.now request.now reply.new.items result }
        ensures empty { OnErr result (reply.new.items ≡ []) }
        ensures faults { HasCause self.old.faults self.new.faults (IsErrOf result Failed) }
    {
        let asked = ask(self.rt, authority, request, reply);
        match asked {
            Err(LinkFail::Failed) => self.faults = self.faults.saturating_add(1),
            Ok(()) | Err(LinkFail::NoMemory) => {}
        }
        asked
    }

    fn pass(
        &mut self,
        _: Global,
        authority: &str,
        request: &[u8],
        reply: &mut Vec<u8>,
    ) -> Result<(), LinkFail>
        ensures passes { result ≡ Ok tt }
        ensures same { self.new ≡ self.old }
        ensures answer { OnOk result (Unit {0} → reply.new.items ≡ reply.old.items) }
        ensures recorded { Tells None None authority.now request.now reply.new.items result }
        ensures empty { OnErr result (reply.new.items ≡ []) }
        ensures faults { HasCause self.old.faults self.new.faults (IsErrOf result Failed) }
    {
        Ok(())
    }

    fn faults(&self) -> u64 {
        self.faults
    }
}

/// Asks, and leaves the reply, or nothing after an error.
fn ask<R: Net>(rt: &R, authority: &str, request: &[u8], reply: &mut Vec<u8>) -> Result<(), LinkFail>
    ensures at_most { OnOk result (length reply.new.items ≤ MOST_BYTES) }
    ensures empty { OnErr result (reply.new.items ≡ []) }
{
    reply.clear();
    match converse(rt, authority, request, reply) {
        Ok(()) => Ok(()),
        Err(e) => {
            reply.clear();
            Err(fail_of(e.kind()))
        }
    }
}

/// Why an exchange has failed.
fn fail_of(kind: ErrorKind) -> LinkFail
    ensures no_memory { (result ≡ WantOfMemory) ↔ (kind ≡ OutOfMemory) }
{
    match kind {
        ErrorKind::OutOfMemory => LinkFail::NoMemory,
        _ => LinkFail::Failed,
    }
}

/// Sends the request on a new connection, and adds what comes until its end.
fn converse<R: Net>(rt: &R, authority: &str, request: &[u8], reply: &mut Vec<u8>) -> io::Result<()>
    ensures { OnOk result (length reply.new.items ≤ MOST_BYTES) }
{
    let mut stream = connected(rt, authority)?;
    send(&mut stream, request)?;
    read_at_most(stream, MOST_BYTES, reply)
}

/// A connection to the first address of the authority's host that answers.
fn connected<R: Net>(rt: &R, authority: &str) -> io::Result<R::Stream> {
    let mut last = io::Error::from(ErrorKind::InvalidInput);
    let Some(asked) = host_and_port(authority) else {
        return Err(last);
    };
    for address in asked.to_socket_addrs(rt)? {
        match TcpStream::connect_timeout(rt, &address, Duration::from_secs(CONNECT_WAIT)) {
            Ok(stream) => return Ok(stream),
            Err(e) => last = e,
        }
    }
    Err(last)
}

fn send<S: Write + OpenStream>(stream: &mut S, request: &[u8]) -> io::Result<()> {
    let wait = Some(Duration::from_secs(ONE_WAIT));
    stream.set_read_timeout(wait)?;
    stream.set_write_timeout(wait)?;
    stream.write_all(request)
}
