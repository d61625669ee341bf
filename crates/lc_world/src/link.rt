ghost use Rattle.std.specs.Prelude.{◌≡◌, [], Option, OnErr, OnOk, IsErrOf};
ghost use Rattle.connection_uri.specs.Base.{BaseParts};
ghost use Rattle.lc_io.specs.Counts.{HasCause};
ghost use Rattle.lc_world.specs.Link.{Exchanges, IsGet, IsHonestWith, LinkSeen, Tells};
ghost use Rattle.lc_world.specs.declared.link.LinkFail.TheVariants.{Failed, NoMemory as OutOfMemory};
ghost use Rattle.lc_world.specs.Sides.Side.{Side};

use lc_model::NoMemory;
use std::alloc::Global;

/// Why a link gave no reply.
#[derive(Clone, Copy, PartialEq, Eq)]
pub enum LinkFail {
    Failed,
    NoMemory,
}

impl From<NoMemory> for LinkFail {
    ghost from_gives = { λ _ fail. fail ≡ OutOfMemory };

    fn from(_: NoMemory) -> LinkFail {
        LinkFail::NoMemory
    }
}

/// A link to a publisher, by which requests are answered. Honest, quiet, clear and still are said of what it holds now: what each call
/// leaves is said of the call.
pub trait Link {
    /// What is known of the link.
    ghost seen: { Self → LinkSeen };

    /// The side of the link to which it hands answers on, if there is one with a side.
    ghost behind: { Self → Option Side };

    /// Asks the authority, as `host:port`, the request, and leaves the reply's bytes in `reply`.
    fn exchange(
        &mut self,
        alloc: Global,
        authority: &str,
        request: &[u8],
        reply: &mut Vec<u8>,
    ) -> Result<(), LinkFail>
        // What an honest link is asked by a GET it answers from its side, and an honest link is left, whatever the result.
        ensures honest { (base : BaseParts) (side : Side) → IsGet request.now → IsHonestWith (seen self.old) base side
            → Exchanges (seen self.old) (seen self.new) base side request.now reply.new.items result }
        ensures clear { (seen self.old).clear → (seen self.new).clear }
        ensures still { (seen self.old).still → (seen self.new).still }
        // Also where the link is not honest, and so whatever is replied.
        ensures side { (seen self.old).still → IsGet request.now → (seen self.new).side ≡ (seen self.old).side }
        ensures behind { behind self.new ≡ behind self.old }
        ensures recorded { Tells (seen self.old).recorded (seen self.new).recorded authority.now request.now reply.new.items result }
        ensures empty { OnErr result (reply.new.items ≡ []) }
        ensures faults { HasCause (seen self.old).faults (seen self.new).faults (IsErrOf result Failed) };

    /// Hands on an exchange that the program has answered itself: at entry `reply` holds that answer.
    fn pass(
        &mut self,
        alloc: Global,
        authority: &str,
        request: &[u8],
        reply: &mut Vec<u8>,
    ) -> Result<(), LinkFail>
        // The side stays, and so does what the link is.
        ensures side { (seen self.new).side ≡ (seen self.old).side }
        ensures behind { behind self.new ≡ behind self.old }
        ensures honest { (base : BaseParts) → (seen self.old).honest base → (seen self.new).honest base }
        ensures quiet { (base : BaseParts) → (seen self.old).quiet base → (seen self.new).quiet base }
        ensures clear { (seen self.old).clear → (seen self.new).clear }
        ensures still { (seen self.old).still → (seen self.new).still }
        ensures answer { OnOk result ((seen self.old).clear → reply.new.items ≡ reply.old.items) }
        ensures recorded { Tells (seen self.old).recorded (seen self.new).recorded authority.now request.now reply.new.items result }
        ensures empty { OnErr result (reply.new.items ≡ []) }
        ensures faults { HasCause (seen self.old).faults (seen self.new).faults (IsErrOf result Failed) };

    /// How often an exchange has failed.
    fn faults(&self) -> u64
        ensures { result ≡ (seen self.now).faults };
}
