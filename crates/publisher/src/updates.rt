ghost use Rattle.std.specs.Prelude.{◌≡◌, ◌⊎◌, IfErr, IfOk, IfSome, IsOk, OnErr};
ghost use Rattle.http_text.specs.ReplyText.{HasReason};
ghost use Rattle.lc_model.specs.declared.versions.update.Update.{Update as Said};
ghost use Rattle.publisher.specs.Held.{side_of};
ghost use Rattle.publisher.specs.Updated.{IsRefusal, IsUpdated, status_of_fault};
ghost use Rattle.version_store.specs.Admission.{Admits, IsRefused, IsTaken};
ghost use Rattle.version_store.specs.declared.admission.AdmitFault.{AdmitFault as Fault};
ghost use Rattle.version_store.specs.declared.admission.AdmitFault.TheVariants.{NoMemory as OutOfMemory};

use crate::Publisher;
use crate::parameters::says_length;
use fragmenter::Fragmenter;
use http_text::Request;
use lc_model::NoMemory;
use lc_world::Response;
use std::alloc::Global;
use version_store::{AdmitFault, Admitted};

/// The status of a message that is not admitted. None where memory ran out.
fn status_of(fault: AdmitFault) -> Option<u16>
    ensures status { result ≡ status_of_fault fault }
    ensures reason { IfSome result HasReason }
{
    match fault {
        AdmitFault::TooLong { .. } => Some(413),
        AdmitFault::Broken(_) => Some(400),
        AdmitFault::NotNewer { .. } => Some(409),
        AdmitFault::Full { .. } => Some(507),
        AdmitFault::NoMemory => None,
    }
}

impl<G: Fragmenter + Drop> Publisher<G> {
    /// Admits a message, as the store does: after it there is a version of its moment.
    pub fn admit(&mut self, alloc: Global, bytes: &[u8]) -> Result<Admitted, AdmitFault>
        ensures taken { IfOk result (Admits self.old.store self.new.store bytes.now) }
        ensures same { self.new ≡ record self.old { store = self.new.store } }
        ensures refused { IfErr result (λ fault. (fault ≡ OutOfMemory) ⊎ IsRefused self.old.store bytes.now fault) }
        ensures unchanged { OnErr result (self.new ≡ self.old) }
        ensures only_taken { (update : Said) → IsTaken self.old.store bytes.now update → IsOk result ⊎ (result ≡ Err OutOfMemory) }
        ensures only_refused { (fault : Fault) → IsRefused self.old.store bytes.now fault →
            (result ≡ Err fault) ⊎ (result ≡ Err OutOfMemory) }
    {
        let outcome = self.store.admit(alloc, bytes);
        let _versions = self.store.versions();
        outcome
    }

    /// The reply to a request that a message is admitted. It is written before the message is, so that running out of memory leaves
    /// the side as it was. Linear in the body.
    pub(crate) fn update(
        &mut self,
        alloc: Global,
        request: &Request,
        body: &[u8],
    ) -> Result<Vec<u8>, NoMemory>
        ensures updated { IfOk result (λ text.
            IsUpdated (side_of G.cuts_of self.old) request.now body.now text.items (side_of G.cuts_of self.new)) }
        ensures cutting { self.new.cutting ≡ self.old.cutting }
        ensures unchanged { OnErr result (self.new ≡ self.old) }
    {
        if !says_length(request) {
            return self.reply(alloc, request, &Response::Status(411));
        }
        let admitted = self.reply(alloc, request, &Response::Status(204))?;
        match self.admit(alloc, body) {
            Ok(_) => Ok(admitted),
            Err(fault) => self.refusal(alloc, request, fault),
        }
    }

    /// The reply to a message that is not admitted.
    fn refusal(
        &self,
        alloc: Global,
        request: &Request,
        fault: AdmitFault,
    ) -> Result<Vec<u8>, NoMemory>
        ensures { IfOk result
            (λ text. IsRefusal (side_of G.cuts_of self.now) request.now fault text.items) }
    {
        match status_of(fault) {
            Some(status) => self.reply(alloc, request, &Response::Status(status)),
            None => Err(NoMemory),
        }
    }
}
