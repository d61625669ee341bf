ghost use Rattle.std.specs.Prelude.{◌≡◌, ◌+◌, ◌<◌, ◌≤◌, ◌++◌, ℕ, List, [], true, false, length, take, drop, OnErr, OnOk};
ghost use Rattle.lc_io.specs.Talk.{Said, TalkSeen};

use lc_model::NoMemory;
use std::alloc::Global;

/// A talk with one client: requests come in, in any pieces, and replies go out.
pub trait Talk {
    /// What a talk may start from. What it says is determined by its start and the bytes that it was fed.
    ghost Start: { Type 0 };

    /// What is known of the talk.
    ghost seen: { Self → TalkSeen };

    /// What a talk says that started there and was fed these bytes.
    ghost says: { Self.Start → List ℕ → Said → Type 0 };

    /// The talk started there, was fed the first bytes, and has sent the second ones.
    ghost stands: { Self → Self.Start → List ℕ → List ℕ → Type 0 };

    /// Takes the next bytes. Once the talk has ended they are dropped. After it has run out of memory the talk has ended, and what was pending
    /// still is.
    fn feed_piece(&mut self, alloc: Global, piece: &[u8]) -> Result<(), NoMemory>
        ensures fed { OnOk result ((start : Self.Start) (fed sent : List ℕ) → stands self.old start fed sent → stands self.new start (fed ++ piece.now) sent) }
        ensures count { OnOk result ((seen self.new).ended ≡ false → (seen self.new).count ≡ (seen self.old).count + length piece.now) }
        ensures ended { (seen self.old).ended ≡ true → ((seen self.new).ended ≡ true) × ((seen self.new).pending ≡ (seen self.old).pending) × ((seen self.new).requests ≡ (seen self.old).requests) }
        ensures out_of_memory { OnErr result (((seen self.new).ended ≡ true) × ((more : List ℕ) × ((seen self.new).pending ≡ (seen self.old).pending ++ more))) };

    /// What of the output was not sent yet.
    fn pending(&self) -> &[u8]
        ensures { result.now ≡ (seen self.now).pending };

    /// Takes note that so many of the pending bytes were sent.
    fn sent(&mut self, count: usize)
        requires { count ≤ length (seen self.old).pending }
        ensures sent { (start : Self.Start) (fed sent : List ℕ) → stands self.old start fed sent → stands self.new start fed (sent ++ take count (seen self.old).pending) }
        ensures others { seen self.new ≡ record (seen self.old) { pending = drop count (seen self.old).pending } };

    /// Whether no further bytes are needed. A talk that has not ended was fed fewer bytes than a hundred requests may have at most.
    fn ended(&self) -> bool
        ensures ended { result ≡ (seen self.now).ended }
        ensures bounded { (seen self.now).ended ≡ false → (seen self.now).count < 1679360000 };

    /// How many requests the output answers.
    fn requests(&self) -> u32
        ensures { result ≡ (seen self.now).requests };

    // What was sent, and what is pending, is what is said for the bytes that were fed.
    ghost said: { (talk : Self) (start : Self.Start) (fed sent : List ℕ) → stands talk start fed sent
        → says start fed (record { output = sent ++ (seen talk).pending; requests = (seen talk).requests; ended = (seen talk).ended }) };

    // It is determined by the start and the bytes.
    ghost one: { (start : Self.Start) (fed : List ℕ) (a b : Said) → says start fed a → says start fed b → a ≡ b };

    // For no bytes nothing is said.
    ghost nothing: { (start : Self.Start) (a : Said) → says start [] a → a ≡ record { output = []; requests = 0; ended = false } };
}
