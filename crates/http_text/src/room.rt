ghost use Rattle.std.specs.Prelude.{◌≡◌, ◌≢◌, ◌+◌, ◌≤◌, ◌⊎◌, ℕ, Ok, Err, length, take, IfOk, IfErr, vec_len};
ghost use Rattle.httparse.specs.Grammar.{RequestHead};
ghost use Rattle.http_text.specs.declared.reply.Reply.{Reply as Said};
ghost use Rattle.http_text.specs.declared.reply_fault.ReplyFault.{ReplyFault as Fault};
ghost use Rattle.http_text.specs.declared.reply_fault.ReplyFault.TheVariants.{NoMemory as OutOfMemory};
ghost use Rattle.http_text.specs.declared.taken.Taken.{Taken as Answer};
ghost use Rattle.http_text.specs.declared.taken.Taken.TheVariants.{Whole as WholeRequest, NotYet as Later};
ghost use Rattle.http_text.specs.Reply.{IsReply, HasFault};
ghost use Rattle.http_text.specs.Request.{IsWhole};
ghost use Rattle.http_text.specs.Taken.{Takes, HasHead, IsOpen, WaitsFor, needed};

use crate::reply_reading::reply_in;
use crate::start::start_in;
use crate::{Reply, ReplyFault, Taken};
use httparse::spans::{EMPTY_HEADER_SPAN, HeaderSpan};
use lc_model::NoMemory;
use std::alloc::Global;

/// How many fields there is room for, which is more than 16,384 bytes hold.
const ROOM: usize = 5_500;

/// The room that reading a head takes. A session keeps it from one head to the next.
#[derive(Drop)]
pub struct HeadRoom {
    fields: Vec<HeaderSpan>,
    waits_for: usize,
    ghost roomy: { vec_len fields ≡ 5_500 },
}

impl HeadRoom {
    pub fn new(alloc: Global) -> Result<HeadRoom, NoMemory>
        ensures { IfOk result (λ room. room.waits_for ≡ 0) }
    {
        Ok(HeadRoom {
            fields: vec![in alloc; EMPTY_HEADER_SPAN; ROOM]?,
            waits_for: 0,
        })
    }

    /// How many bytes in all have to have come before it is worth taking a request from them again. After a "not yet"
    /// they are those of the head and its body, or one more than there were. Else they are 0.
    pub fn waits_for(&self) -> usize
        ensures { result ≡ self.now.waits_for }
    {
        self.waits_for
    }

    /// What is at the front of the bytes that have come: a whole request, less than one, or a head that is refused.
    /// Takes no memory, and time linear in the first 16,384 bytes.
    pub fn take_request(&mut self, bytes: &[u8]) -> Taken
        ensures said { Takes bytes.now result }
        ensures only { (other : Answer) → Takes bytes.now other → result ≡ other }
        ensures whole { (n : ℕ) → result ≡ WholeRequest n → (n ≤ length bytes.now) × IsWhole (take n bytes.now) }
        ensures every_whole { (n : ℕ) → n ≤ length bytes.now → IsWhole (take n bytes.now) → result ≡ WholeRequest n }
        // It remembers how many bytes in all another answer needs. Of a complete head they are those of its request.
        // Of an open one, of which no more is known, they are one more than there are.
        ensures waits { result ≡ Later → WaitsFor bytes.now self.new.waits_for }
        ensures waits_for_head { result ≡ Later → IsOpen bytes.now → self.new.waits_for ≡ length bytes.now + 1 }
        ensures waits_for_body { result ≡ Later → (h : RequestHead) → HasHead bytes.now h
            → self.new.waits_for ≡ needed h }
        ensures waits_no_more { result ≢ Later → self.new.waits_for ≡ 0 }
    {
        let start = start_in(self.fields.as_mut_slice(), bytes);
        self.waits_for = start.waits_for(bytes.len());
        start.taken(bytes.len())
    }

    /// What a reply of these bytes says, or its first fault. Takes time linear in the first 16,384 bytes.
    pub fn read_reply(&mut self, alloc: Global, bytes: &[u8]) -> Result<Reply, ReplyFault>
        ensures said { IfOk result (IsReply bytes.now) }
        ensures only { (reply : Said) → IsReply bytes.now reply → (result ≡ Ok reply) ⊎ (result ≡ Err OutOfMemory) }
        ensures fault { IfErr result (λ fault. (fault ≡ OutOfMemory) ⊎ HasFault bytes.now fault) }
        ensures only_fault { (fault : Fault) → HasFault bytes.now fault
            → (result ≡ Err fault) ⊎ (result ≡ Err OutOfMemory) }
        ensures waits { self.new.waits_for ≡ self.old.waits_for }
    {
        reply_in(alloc, self.fields.as_mut_slice(), bytes)
    }
}

/// What is at the front of the bytes that have come, as `HeadRoom::take_request` says it, with room made for it.
pub fn take_request(alloc: Global, bytes: &[u8]) -> Result<Taken, NoMemory>
    ensures said { IfOk result (Takes bytes.now) }
    ensures only { IfOk result (λ taken. (other : Answer) → Takes bytes.now other → taken ≡ other) }
    ensures whole { IfOk result (λ taken. (n : ℕ) → taken ≡ WholeRequest n
        → (n ≤ length bytes.now) × IsWhole (take n bytes.now)) }
    ensures every_whole { IfOk result (λ taken. (n : ℕ) → n ≤ length bytes.now
        → IsWhole (take n bytes.now) → taken ≡ WholeRequest n) }
{
    Ok(HeadRoom::new(alloc)?.take_request(bytes))
}
