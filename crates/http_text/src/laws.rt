ghost use Rattle.std.specs.Prelude.{◌≡◌, ℕ, List, Result};
ghost use Rattle.http_text.specs.declared.reply.Reply.{Reply};
ghost use Rattle.http_text.specs.declared.reply_fault.ReplyFault.{ReplyFault};
ghost use Rattle.http_text.specs.declared.request.Request.{Request};
ghost use Rattle.http_text.specs.Reply.{IsRead};
ghost use Rattle.http_text.specs.Request.{IsWholeRequest};
ghost use Rattle.http_text.specs.Targets.{TargetsAreGood, TargetsAreRead};

/// Under every base a GET can be made of each good target: of the time gate, of the stops document and of each page.
pub fn targets_are_good()
    ensures { TargetsAreGood }
{}

/// What these targets say: of the time gate the moment, of a page the version and the moment, and nothing else.
pub fn targets_are_read()
    ensures { TargetsAreRead }
{}

/// Bytes say one request at most, and one reply at most or one first fault.
pub fn one_message()
    ensures request { (bytes : List ℕ) (a b : Request) → IsWholeRequest bytes a → IsWholeRequest bytes b → a ≡ b }
    ensures reply { (bytes : List ℕ) (a b : Result Reply ReplyFault) → IsRead bytes a → IsRead bytes b → a ≡ b }
{}

/// No bytes are without a reply or a first fault: not every one is ruled out.
pub fn some_reply()
    ensures { (bytes : List ℕ) → ¬ ((read : Result Reply ReplyFault) → ¬ (IsRead bytes read)) }
{}
