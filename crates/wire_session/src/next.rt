ghost use Rattle.std.specs.Prelude.{◌≡◌};
ghost use Rattle.wire_session.specs.Steps.{next_after};

/// How many replies a connection gets.
const MOST_REPLIES: u32 = 100;

/// What becomes of a session by what is at the front of its bytes.
#[derive(Clone, Copy, PartialEq, Eq)]
pub enum Next {
    /// A request of so many bytes was answered, and the session goes on.
    Answered { length: usize },
    /// Less than a whole request is there.
    Waits,
    /// It gave the last reply.
    Ends,
}

/// What becomes of a session after a reply, of which there were so many, to a request of so many bytes.
pub fn next_after(closes: bool, count: u32, length: usize) -> Next
    ensures { result ≡ next_after closes count length }
{
    if closes || count == MOST_REPLIES {
        Next::Ends
    } else {
        Next::Answered { length }
    }
}
