ghost use Rattle.std.specs.Prelude.{◌≡◌, ◌≢◌, Some, None, IfOk, IfNone, IfSome, OnErr};
ghost use Rattle.lc_world.specs.GoneOn.{IsLeftByGets};
ghost use Rattle.page_client.specs.Client.{shown};
ghost use Rattle.page_client.specs.Shown.{want_of};
ghost use Rattle.page_client.specs.declared.want.Want.TheVariants.{Finished};
ghost use Rattle.convoy.specs.Exchange.{IsAsked};

use connection_uri::Base;
use lc_model::NoMemory;
use lc_world::{Link, LinkFail};
use page_client::Client;
use std::alloc::Global;

/// Asks for what the client wants, once. Where the exchange fails the client ends, and there is no reply.
pub fn exchanged<L: Link>(
    alloc: Global,
    base: &Base,
    client: &mut Client,
    link: &mut L,
) -> Result<Option<Vec<u8>>, NoMemory>
    requires { want_of (shown client.old).phase ≢ Finished }
    ensures replied { IfOk result (λ got. IfSome got (λ reply. IsAsked base.now client.old client.new (L.seen link.old) (L.seen link.new) (Some reply.items))) }
    ensures failed { IfOk result (λ got. IfNone got (IsAsked base.now client.old client.new (L.seen link.old) (L.seen link.new) None)) }
    ensures err { OnErr result (client.new ≡ client.old) }
    ensures left { IsLeftByGets (L.seen link.old) (L.seen link.new) }
    ensures behind { L.behind link.new ≡ L.behind link.old }
{
    let request = client.request(alloc, base)?;
    let before = link.faults();
    let mut reply = Vec::new(alloc);
    match link.exchange(alloc, base.authority(), request.as_slice(), &mut reply) {
        Ok(()) => Ok(Some(reply)),
        Err(LinkFail::Failed) => {
            client.give_link_fault(before, link.faults());
            Ok(None)
        }
        Err(LinkFail::NoMemory) => Err(NoMemory),
    }
}
