ghost use Rattle.std.specs.Prelude.{◌≡◌, ℕ, List, Option, Some, None, IfErr, IfOk};
ghost use Rattle.lc_world.specs.GoneOn.{IsLeftByGets};
ghost use Rattle.page_client.specs.Request.{Asks};
ghost use Rattle.page_client.specs.declared.outcome.Outcome.TheVariants as outcomes;
ghost use Rattle.back_client.specs.Exchange.{IsExchange};

use connection_uri::Base;
use lc_model::NoMemory;
use lc_world::{Link, LinkFail};
use page_client::Outcome;
use std::alloc::Global;

/// Asks the request once. Gives the reply, or the outcome that the exchange failed, with the link's counts before and after it.
pub fn exchanged<L: Link>(
    alloc: Global,
    base: &Base,
    request: &[u8],
    link: &mut L,
) -> Result<Result<Vec<u8>, Outcome>, NoMemory>
    ensures replied { (target : List ℕ) (known : Option ℕ) → Asks base.now target known request.now
        → IfOk result (λ got. IfOk got (λ reply. IsExchange base.now target known (L.seen link.old) (L.seen link.new) (Some reply.items))) }
    ensures failed { (target : List ℕ) (known : Option ℕ) → Asks base.now target known request.now
        → IfOk result (λ got. IfErr got (λ outcome. IsExchange base.now target known (L.seen link.old) (L.seen link.new) None)) }
    ensures counts { IfOk result (λ got. IfErr got (λ outcome. outcome ≡ outcomes.LinkFault (L.seen link.old).faults (L.seen link.new).faults)) }
    ensures left { (target : List ℕ) (known : Option ℕ) → Asks base.now target known request.now → IsLeftByGets (L.seen link.old) (L.seen link.new) }
    ensures behind { L.behind link.new ≡ L.behind link.old }
{
    let before = link.faults();
    let mut reply = Vec::new(alloc);
    match link.exchange(alloc, base.authority(), request, &mut reply) {
        Ok(()) => Ok(Ok(reply)),
        Err(LinkFail::Failed) => Ok(Err(Outcome::LinkFault {
            before,
            after: link.faults(),
        })),
        Err(LinkFail::NoMemory) => Err(NoMemory),
    }
}
