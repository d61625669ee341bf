ghost use Rattle.std.specs.Prelude.{◌≡◌, [], None, OnErr, IsErrOf};
ghost use Rattle.lc_io.specs.Counts.{HasCause, one_more};
ghost use Rattle.lc_world.specs.Link.{Tells};
ghost use Rattle.lc_world.specs.declared.link.LinkFail.TheVariants.{Failed};

use lc_world::{Link, LinkFail};
use std::alloc::Global;
use std::marker::Model;

/// A link to nobody: each exchange fails, and an answer that is handed on stays as it is.
#[derive(Drop)]
pub struct ClosedLink {
    faults: u64,
}

impl Model for ClosedLink {
    ghost use Rattle.lc_links.specs.ClosedLink.{ClosedLinkState};

    ghost Value = { ClosedLinkState };

    ghost view = { λ c. record { faults = c.faults } };
}

impl ClosedLink {
    /// A link by which nothing was asked.
    pub fn new() -> ClosedLink
        ensures { result ≡ record { faults = 0 } }
    {
        ClosedLink { faults: 0 }
    }
}

impl Link for ClosedLink {
    ghost use Rattle.std.specs.Prelude.{None};

    ghost behind = { λ _. None };

    /// It records no side and no exchanges.
    ghost seen = { λ c. record {
      side = None;
      recorded = None;
      honest = λ _. ⊥;
      quiet = λ _. ⊥;
      clear = Unit {0};
      still = Unit {0};
      faults = c.faults;
    } };

    fn exchange(
        &mut self,
        _: Global,
        _: &str,
        _: &[u8],
        reply: &mut Vec<u8>,
    ) -> Result<(), LinkFail>
        ensures fails { result ≡ Err Failed }
        ensures counted { self.new.faults ≡ one_more self.old.faults }
        ensures nothing { reply.new.items ≡ [] }
        ensures faults { HasCause self.old.faults self.new.faults (IsErrOf result Failed) }
    {
        self.faults = self.faults.saturating_add(1);
        reply.clear();
        Err(LinkFail::Failed)
    }

    fn pass(&mut self, _: Global, _: &str, _: &[u8], reply: &mut Vec<u8>) -> Result<(), LinkFail>
        ensures passes { result ≡ Ok tt }
        ensures same { self.new ≡ self.old }
        ensures answer { reply.new.items ≡ reply.old.items }
        ensures faults { HasCause self.old.faults self.new.faults (IsErrOf result Failed) }
    {
        Ok(())
    }

    fn faults(&self) -> u64 {
        self.faults
    }
}
