ghost use Rattle.std.specs.Prelude.{◌≡◌, ◌+◌, ◌≤◌, ◌⊎◌, length, All};
ghost use Rattle.httparse.specs.Grammar.{EndsInTarget};
ghost use Rattle.httparse.specs.Spans.{IsHeaderWithin, span_bytes, IsWithin};
ghost use Rattle.http_text.specs.declared.start.Start.TheVariants.{Open as Unfinished, Refused as Refusal};
ghost use Rattle.http_text.specs.Length.{length_of, said_or};
ghost use Rattle.http_text.specs.Named.{texts_at};
ghost use Rattle.http_text.specs.Request.{refusal_of};
ghost use Rattle.http_text.specs.Start.{IsStart, judged, start_taken, start_waits};
ghost use Rattle.http_text.specs.Taken.{with_body, open_taken};

use crate::Taken;
use crate::front::{HEAD_BYTES, front_of};
use crate::head::refusal_of;
use crate::length::length_of;
use crate::open_target::ends_in_target;
use httparse::Status;
use httparse::spans::{HeaderSpan, RequestSpans, parse_request};

/// What is at the front of the bytes that have come.
#[derive(Clone, Copy)]
pub enum Start {
    /// A head that is not refused. It has so many bytes with its body.
    Head { needed: usize },
    /// No whole head, and one may follow.
    Open,
    /// A head that is refused with this status, or none.
    Refused { status: u16 },
}

impl Start {
    /// What is taken after so many bytes in all.
    pub fn taken(self, got: usize) -> Taken
        ensures { result ≡ start_taken self got }
    {
        match self {
            Start::Head { needed } => with_body(needed, got),
            Start::Open => open_taken(got),
            Start::Refused { status } => Taken::Refused { status },
        }
    }

    /// How many bytes in all another answer needs, if "not yet" is the one after so many; else 0.
    pub fn waits_for(self, got: usize) -> usize
        ensures { result ≡ start_waits self got }
    {
        match self {
            Start::Head { needed } if got < needed => needed,
            Start::Open if got < HEAD_BYTES => got + 1,
            Start::Head { needed: _ } | Start::Open | Start::Refused { status: _ } => 0,
        }
    }
}

fn with_body(needed: usize, got: usize) -> Taken
    ensures { result ≡ with_body needed got }
{
    if needed <= got {
        Taken::Whole { length: needed }
    } else {
        Taken::NotYet
    }
}

fn open_taken(got: usize) -> Taken
    ensures { result ≡ open_taken got }
{
    if got < HEAD_BYTES {
        Taken::NotYet
    } else {
        Taken::Refused { status: 431 }
    }
}

/// What is at the front of these bytes.
pub fn start_in(room: &mut [HeaderSpan], bytes: &[u8]) -> Start
    requires { length room.old ≡ 5_500 }
    ensures { IsStart bytes.now result }
{
    let front = front_of(bytes);
    match parse_request(front, room) {
        Ok(Status::Complete(head)) => judge(front, &room[..head.headers], head),
        Ok(Status::Partial) => Start::Open,
        Err(_) => without_head(front),
    }
}

/// A head, or its refusal.
fn judge(front: &[u8], fields: &[HeaderSpan], head: RequestSpans) -> Start
    requires fields { All (IsHeaderWithin (length front.now)) fields.now }
    requires target { IsWithin (length front.now) head.path }
    requires len { head.len ≤ 16_384 }
    ensures { result ≡ judged (refusal_of head.version (span_bytes front.now head.path) (texts_at front.now fields.now))
        (head.len + said_or (length_of (texts_at front.now fields.now)) 0) }
{
    match refusal_of(front, fields, head.version, head.path.of(front)) {
        Some(status) => Start::Refused { status },
        None => Start::Head {
            needed: head.len + length_of(front, fields).said_or(0) as usize,
        },
    }
}

/// What is there where no bytes make a head. Inside a target the parser may see that before the target ends, or at
/// its end.
fn without_head(front: &[u8]) -> Start
    ensures { (EndsInTarget front.now × (result ≡ Unfinished)) ⊎ (¬ (EndsInTarget front.now) × (result ≡ Refusal 400)) }
{
    if ends_in_target(front) {
        Start::Open
    } else {
        Start::Refused { status: 400 }
    }
}
