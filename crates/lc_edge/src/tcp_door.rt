ghost use Rattle.std.specs.Prelude.{◌≡◌, ◌<◌, ◌≤◌, true, false, length, Ok, Err, None, IfOk, IsErrOf, IsTrue, OnErr, OnOk};
ghost use Rattle.lc_io.specs.Counts.{Counts, HasCause, one_more};
ghost use Rattle.lc_io.specs.Door.{connected_after, listens_after};
ghost use Rattle.lc_io.specs.declared.door.DoorFail.TheVariants.{Failed};
ghost use Rattle.lc_io.specs.declared.door.Next.TheVariants.{Connection};

use crate::caller::Caller;
use lc_io::{Door, DoorFail, Next};
use std::io::{self, ErrorKind, Read, Write};
use std::marker::Model;
use std::net::{Ipv4Addr, Net, OpenListener, OpenStream, TcpListener};
use std::time::Clock;

/// How many clients are taken, at most, until one is there.
const TRIES: usize = 64;

/// A door of the system's sockets, at the loopback address 127.0.0.1 alone. It serves one connection at a time, and records nothing that
/// comes and goes. A read or a write waits 10 seconds at most, and those of one connection wait 60 seconds together; one that waits longer
/// has failed.
#[derive(Drop)]
pub struct TcpDoor<'a, R: Net + Clock> {
    rt: &'a R,
    listener: Option<R::Listener>,
    current: Option<Caller<R::Stream>>,
    faults: u64,
    broken: u64,
}

impl<'a, R: Net + Clock> Model for TcpDoor<'a, R> {
    ghost use Rattle.std.specs.Option.{is_some};
    ghost use Rattle.lc_edge.specs.TcpDoor.{TcpDoorState};

    ghost Value = { TcpDoorState };

    ghost view = { λ d. record { listens = is_some d.listener; connected = is_some d.current; faults = d.faults; broken = d.broken } };
}

impl<'a, R: Net + Clock> TcpDoor<'a, R> {
    /// A door that does not listen yet.
    pub fn new(rt: &'a R) -> TcpDoor<'a, R>
        ensures { result ≡ record { listens = false; connected = false; faults = 0; broken = 0 } }
    {
        TcpDoor {
            rt,
            listener: None,
            current: None,
            faults: 0,
            broken: 0,
        }
    }
}

impl<R: Net + Clock> TcpDoor<'_, R> {
    /// Counts a failed `listen` or `next`.
    fn fault(&mut self) -> DoorFail
        ensures counted { self.new ≡ record self.old { faults = one_more self.old.faults } }
        ensures not_fallen { self.old.faults ≤ self.new.faults }
        ensures failed { result ≡ Failed }
    {
        self.faults = self.faults.saturating_add(1);
        DoorFail::Failed
    }

    /// Counts a failed `read` or `write`.
    fn break_off(&mut self) -> DoorFail
        ensures counted { self.new ≡ record self.old { broken = one_more self.old.broken } }
        ensures not_fallen { self.old.broken ≤ self.new.broken }
        ensures failed { result ≡ Failed }
    {
        self.broken = self.broken.saturating_add(1);
        DoorFail::Failed
    }
}

impl<R: Net + Clock> Door for TcpDoor<'_, R> {
    ghost use Rattle.lc_edge.specs.TcpDoor.{seen_of};

    ghost seen = { seen_of };

    /// A port that is taken is a fault.
    fn listen(&mut self, port: u16) -> Result<(), DoorFail>
        ensures fails { OnErr result (result ≡ Err DoorFail.Failed) }
        ensures each_fault { Counts self.old.faults self.new.faults (IsErrOf result Failed) }
        ensures listens { self.new.listens ≡ listens_after result self.old.listens }
        ensures faults { HasCause self.old.faults self.new.faults (IsErrOf result Failed) }
        ensures connected { self.new.connected ≡ self.old.connected }
        ensures broken { self.new.broken ≡ self.old.broken }
    {
        match TcpListener::bind(self.rt, (Ipv4Addr::LOCALHOST, port)) {
            Ok(listener) => {
                self.listener = Some(listener);
                Ok(())
            }
            Err(_) => Err(self.fault()),
        }
    }

    /// Waits without a bound. It never answers that no further connection comes.
    fn next(&mut self) -> Result<Next, DoorFail>
        requires { IsTrue self.old.listens }
        ensures comes { OnOk result (result ≡ Ok Next.Connection) }
        ensures fails { OnErr result (result ≡ Err DoorFail.Failed) }
        ensures each_fault { Counts self.old.faults self.new.faults (IsErrOf result Failed) }
        ensures connected { self.new.connected ≡ connected_after result }
        ensures faults { HasCause self.old.faults self.new.faults (IsErrOf result Failed) }
        ensures listens { self.new.listens ≡ self.old.listens }
        ensures broken { self.new.broken ≡ self.old.broken }
    {
        self.current = None;
        let Some(listener) = &self.listener else {
            unreachable!();
        };
        match taken(listener) {
            Ok(caller) => {
                self.current = Some(caller);
                Ok(Next::Connection)
            }
            Err(_) => Err(self.fault()),
        }
    }

    fn read(&mut self, piece: &mut [u8]) -> Result<usize, DoorFail>
        ensures fails { OnErr result (result ≡ Err DoorFail.Failed) }
        ensures each_fault { Counts self.old.broken self.new.broken (IsErrOf result Failed) }
        ensures at_most { IfOk result (λ n. n ≤ length piece.old) }
        ensures nobody { self.old.connected ≡ false → result ≡ Ok 0 }
        ensures broken { HasCause self.old.broken self.new.broken (IsErrOf result Failed) }
        ensures others { seen_of self.new ≡ record (seen_of self.old) { broken = self.new.broken } }
    {
        let Some(caller) = &mut self.current else {
            return Ok(0);
        };
        match caller.read(self.rt, piece) {
            Ok(count) => Ok(count),
            Err(_) => Err(self.break_off()),
        }
    }

    /// A write that takes nothing of a piece has failed.
    fn write(&mut self, piece: &[u8]) -> Result<usize, DoorFail>
        requires { IsTrue self.old.connected }
        ensures fails { OnErr result (result ≡ Err DoorFail.Failed) }
        ensures each_fault { Counts self.old.broken self.new.broken (IsErrOf result Failed) }
        ensures at_most { IfOk result (λ n. n ≤ length piece.now) }
        ensures at_least { IfOk result (λ n. 0 < length piece.now → 0 < n) }
        ensures broken { HasCause self.old.broken self.new.broken (IsErrOf result Failed) }
        ensures others { seen_of self.new ≡ record (seen_of self.old) { broken = self.new.broken } }
    {
        let Some(caller) = &mut self.current else {
            unreachable!();
        };
        match caller.write(self.rt, piece) {
            Ok(count) if count > 0 || piece.is_empty() => Ok(count),
            _ => Err(self.break_off()),
        }
    }

    /// It takes 200 milliseconds at most, for a rest of the client's bytes that may still come.
    fn hang_up(&mut self)
        ensures { seen_of self.new ≡ record (seen_of self.old) { connected = false } }
    {
        if let Some(mut caller) = self.current.take() {
            caller.leave(self.rt);
        }
    }

    fn broken(&self) -> u64 {
        self.broken
    }

    fn faults(&self) -> u64 {
        self.faults
    }

    ghost agrees = { λ _. tt };
}

/// Takes the next client. One that is gone before it is taken is passed over.
fn taken<L: OpenListener>(listener: &L) -> io::Result<Caller<L::Stream>>
where
    L::Stream: Read + Write + OpenStream,
{
    for _ in 1..TRIES {
        match taken_once(listener) {
            Err(e) if is_gone(e.kind()) => {}
            taken => return taken,
        }
    }
    taken_once(listener)
}

fn taken_once<L: OpenListener>(listener: &L) -> io::Result<Caller<L::Stream>>
where
    L::Stream: Read + Write + OpenStream,
{
    let (stream, _) = listener.accept()?;
    Ok(Caller::new(stream))
}

/// Whether an error says that the client is gone already.
fn is_gone(kind: ErrorKind) -> bool {
    matches!(
        kind,
        ErrorKind::ConnectionAborted | ErrorKind::ConnectionReset | ErrorKind::Interrupted
    )
}
