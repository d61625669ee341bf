ghost use Rattle.std.specs.Prelude.{◌≡◌, ◌≤◌, IfOk, IsErr, length};
ghost use Rattle.std.specs.Duration.{as_nanos};

use std::io::{self, ErrorKind, Read, Write};
use std::net::{OpenStream, Shutdown};
use std::time::{Clock, Duration, Instant};

/// How long one read or write waits, at most, in seconds.
const ONE_WAIT: u64 = 10;

/// How long the reads and writes of one connection wait together, at most, in seconds.
const ALL_WAITS: u64 = 60;

/// How long the rest of a connection is waited for, at most, in milliseconds.
const REST_WAIT: u64 = 200;

/// The rest of a connection is read in pieces of so many bytes.
const REST_PIECE: usize = 16_384;

/// How many pieces of the rest are read, at most: 32 MiB, more than a request may have.
const REST_PIECES: usize = 2_048;

/// How often a call is tried that a signal interrupts.
const TRIES: usize = 8;

/// A connection to a client, and how long its calls may still wait.
#[derive(Drop)]
pub(crate) struct Caller<S: Read + Write + OpenStream + Drop> {
    stream: S,
    left: Duration,
}

impl<S: Read + Write + OpenStream + Drop> Caller<S> {
    /// A connection on which nothing was waited for. Where its timeouts cannot be set nothing is left to wait, and its first call fails.
    pub(crate) fn new(stream: S) -> Caller<S> {
        let left = match set_up(&stream) {
            Ok(()) => Duration::from_secs(ALL_WAITS),
            Err(_) => Duration::ZERO,
        };
        Caller { stream, left }
    }

    /// Reads once. It is an error too where the waits of the connection are used up, or the clock fails.
    pub(crate) fn read(&mut self, clock: &impl Clock, piece: &mut [u8]) -> io::Result<usize>
        ensures at_most { IfOk result (λ n. n ≤ length piece.old) }
        ensures used_up { as_nanos self.old.left ≡ 0 → IsErr result }
        ensures left { as_nanos self.new.left ≤ as_nanos self.old.left }
    {
        let start = self.begin(clock)?;
        let read = read_once(&mut self.stream, piece);
        self.end(clock, start)?;
        read
    }

    /// Writes once. It is an error too where the waits of the connection are used up, or the clock fails.
    pub(crate) fn write(&mut self, clock: &impl Clock, piece: &[u8]) -> io::Result<usize>
        ensures at_most { IfOk result (λ n. n ≤ length piece.now) }
        ensures used_up { as_nanos self.old.left ≡ 0 → IsErr result }
        ensures left { as_nanos self.new.left ≤ as_nanos self.old.left }
    {
        let start = self.begin(clock)?;
        let written = write_once(&mut self.stream, piece);
        self.end(clock, start)?;
        written
    }

    /// Ends the own side, and reads a bounded rest for a short time. A connection that is closed with bytes unread is reset, and its
    /// client may lose a reply (RFC 9112, section 9.6). What fails here is of no concern.
    pub(crate) fn leave(&mut self, clock: &impl Clock) {
        let _ = self.read_rest(clock);
    }

    fn read_rest(&mut self, clock: &impl Clock) -> io::Result<()> {
        self.stream.shutdown(Shutdown::Write)?;
        let start = Instant::now(clock)?;
        let mut piece = [0; REST_PIECE];
        for _ in 0..REST_PIECES {
            if self.rest_ends(clock, start, &mut piece)? {
                break;
            }
        }
        Ok(())
    }

    /// Reads a piece of the rest, and says whether that was the last one, or no time is left since the moment.
    fn rest_ends(
        &mut self,
        clock: &impl Clock,
        start: Instant,
        piece: &mut [u8],
    ) -> io::Result<bool> {
        let left = Duration::from_millis(REST_WAIT).saturating_sub(start.elapsed(clock)?);
        if left.is_zero() {
            return Ok(true);
        }
        self.stream.set_read_timeout(Some(left))?;
        Ok(self.stream.read(piece)? == 0)
    }

    /// The moment at which a call begins, which waits no longer than the connection may.
    fn begin(&self, clock: &impl Clock) -> io::Result<Instant>
        ensures { as_nanos self.now.left ≡ 0 → IsErr result }
    {
        if self.left.is_zero() {
            return Err(io::Error::from(ErrorKind::TimedOut));
        }
        if self.left < Duration::from_secs(ONE_WAIT) {
            self.stream.set_read_timeout(Some(self.left))?;
            self.stream.set_write_timeout(Some(self.left))?;
        }
        Instant::now(clock)
    }

    /// Takes what a call has waited, which began at this moment, from what may still be waited.
    fn end(&mut self, clock: &impl Clock, start: Instant) -> io::Result<()>
        ensures { as_nanos self.new.left ≤ as_nanos self.old.left }
    {
        self.left = self.left.saturating_sub(start.elapsed(clock)?);
        Ok(())
    }
}

/// Bounds the wait of each call. What is written is sent at once.
fn set_up<S: OpenStream>(stream: &S) -> io::Result<()> {
    let wait = Some(Duration::from_secs(ONE_WAIT));
    stream.set_read_timeout(wait)?;
    stream.set_write_timeout(wait)?;
    stream.set_nodelay(true)
}

/// Reads once, and again where a signal interrupts it.
fn read_once<S: Read>(stream: &mut S, piece: &mut [u8]) -> io::Result<usize>
    ensures { IfOk result (λ n. n ≤ length piece.old) }
{
    for _ in 1..TRIES {
        match stream.read(piece) {
            Err(e) if e.kind() == ErrorKind::Interrupted => {}
            read => return read,
        }
    }
    stream.read(piece)
}

/// Writes once, and again where a signal interrupts it.
fn write_once<S: Write>(stream: &mut S, piece: &[u8]) -> io::Result<usize>
    ensures { IfOk result (λ n. n ≤ length piece.now) }
{
    for _ in 1..TRIES {
        match stream.write(piece) {
            Err(e) if e.kind() == ErrorKind::Interrupted => {}
            written => return written,
        }
    }
    stream.write(piece)
}
