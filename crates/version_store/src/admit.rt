ghost use Rattle.std.specs.Prelude.{◌≡◌, ◌+◌, ◌<◌, ◌≤◌, ◌⊎◌, ◌∷◌, ◌++◌, [], ⊤, IfErr, IfOk, IfSome, IsOk, OnErr, OnOk, Some, None, length, List, ℕ};
ghost use Rattle.lc_model.specs.Run.{InKeyOrder};
ghost use Rattle.lc_model.specs.declared.versions.update.Update.{Update as Said};
ghost use Rattle.version_store.specs.declared.store.Admission.{Admission as StatedAdmission};
ghost use Rattle.trip_updates.specs.Message.{IsMessage};
ghost use Rattle.version_store.specs.Admission.{Admits, HasRoom, IsReadFault, IsRefused, IsTaken, Refuses};
ghost use Rattle.version_store.specs.Store.{entry_of, newest_of};
ghost use Rattle.version_store.specs.declared.admission.AdmitFault.{AdmitFault as Fault};
ghost use Rattle.version_store.specs.declared.admission.AdmitFault.TheVariants.{NoMemory as OutOfMemory};

use crate::indexed::turn_to;
use crate::store::Admission;
use crate::{AdmitFault, Admitted, MOST_BYTES, MOST_MESSAGE_BYTES, MOST_MESSAGES, Store};
use lc_model::{Moment, NoMemory, Runs, Update};
use std::alloc::Global;
use trip_updates::{RtFault, read_message};

/// What a message says.
fn read(alloc: Global, bytes: &[u8]) -> Result<Update, AdmitFault>
    ensures said { IfOk result (IsMessage bytes.now) }
    ensures fault { IfErr result (IsReadFault bytes.now) }
{
    match read_message(alloc, bytes) {
        Ok(update) => Ok(update),
        Err(RtFault::NoMemory) => Err(AdmitFault::NoMemory),
        Err(fault) => Err(AdmitFault::Broken(fault)),
    }
}

/// Puts a message and its version at the ends of the lists.
fn push_message(
    versions: &mut Vec<Moment>,
    admitted: &mut Vec<Admission>,
    update: Update,
    bytes: usize,
) -> Result<(), NoMemory>
    ensures version { OnOk result (versions.new.items ≡ versions.old.items ++ update.moment ∷ []) }
    ensures message { OnOk result (admitted.new.items ≡ admitted.old.items ++ record { update = update; bytes = bytes } ∷ []) }
    ensures no_version { OnErr result (versions.new.items ≡ versions.old.items) }
    ensures no_message { OnErr result (admitted.new.items ≡ admitted.old.items) }
{
    versions.push(update.moment)?;
    if admitted.push(Admission { update, bytes }).is_err() {
        let _ = versions.pop();
        return Err(NoMemory);
    }
    Ok(())
}

/// Takes away the last message and its version.
fn pop_message(versions: &mut Vec<Moment>, admitted: &mut Vec<Admission>)
    ensures versions { (v : List ℕ) (m : ℕ) → versions.old.items ≡ v ++ m ∷ [] → versions.new.items ≡ v }
    ensures messages { (a : List StatedAdmission) (m : StatedAdmission) → admitted.old.items ≡ a ++ m ∷ [] → admitted.new.items ≡ a }
{
    let _ = versions.pop();
    let _ = admitted.pop();
}

/// The runs stand in the order of their keys, as their type says. The call does nothing.
fn in_order(runs: &Runs)
    ensures { InKeyOrder runs.now }
{
    let _runs = runs.as_slice();
}

impl Store {
    /// Why a message of so many bytes is not taken, though it is one.
    fn refusal(&self, update: &Update, bytes: usize) -> Option<AdmitFault>
        ensures none { result ≡ None → (newest_of self.now < update.now.moment) × HasRoom self.now.history bytes }
        ensures some { IfSome result (Refuses self.now update.now bytes) }
    {
        let newest = self.newest();
        if update.moment <= newest {
            return Some(AdmitFault::NotNewer { newest });
        }
        let messages = self.admitted.len();
        if messages >= MOST_MESSAGES || bytes > MOST_BYTES - self.bytes {
            return Some(AdmitFault::Full {
                messages: messages as u64,
                bytes: self.bytes as u64,
            });
        }
        None
    }

    /// What the bytes say, if the store takes them.
    fn checked(&self, alloc: Global, bytes: &[u8]) -> Result<Update, AdmitFault>
        ensures taken { IfOk result (IsTaken self.now bytes.now) }
        ensures refused { IfErr result (λ fault. (fault ≡ OutOfMemory) ⊎ IsRefused self.now bytes.now fault) }
    {
        if bytes.len() > MOST_MESSAGE_BYTES {
            return Err(AdmitFault::TooLong {
                bytes: bytes.len() as u64,
            });
        }
        let update = read(alloc, bytes)?;
        match self.refusal(&update, bytes.len()) {
            Some(fault) => Err(fault),
            None => Ok(update),
        }
    }

    /// Puts a message at the end of the history, and a version more into the index.
    fn append(&mut self, alloc: Global, update: Update, bytes: usize) -> Result<(), NoMemory>
        requires newer { newest_of self.old < update.moment }
        requires room { HasRoom self.old.history bytes }
        ensures ok { OnOk result (self.new ≡ record self.old { history = self.old.history ++ entry_of update bytes ∷ [] }) }
        ensures err { OnErr result (self.new ≡ self.old) }
    {
        in_order(&self.runs);
        let message = self.admitted.len();
        push_message(&mut self.versions, &mut self.admitted, update, bytes)?;
        let turned = turn_to(
            alloc,
            &mut self.index,
            &self.runs,
            &self.stops,
            &self.zone,
            self.admitted.as_slice(),
            &mut self.force,
            message,
        );
        match turned {
            Ok(()) => {
                self.bytes += bytes;
                Ok(())
            }
            Err(_) => {
                pop_message(&mut self.versions, &mut self.admitted);
                Err(NoMemory)
            }
        }
    }

    /// Admits a message (GTFS Realtime): after it there is a version of its moment. Of the causes of a refusal the first one
    /// in the order of `AdmitFault` counts. It takes the time of its bytes, and of a sort of its entities. For each key that they touch it takes
    /// the logarithm of the runs and of what is in force, and the time of the calls and of the news in force of that trip. A full message takes
    /// the time of all that was in force, too. Memory grows with the message and the runs that change.
    pub fn admit(&mut self, alloc: Global, bytes: &[u8]) -> Result<Admitted, AdmitFault>
        ensures taken { IfOk result (Admits self.old self.new bytes.now) }
        ensures refused { IfErr result (λ fault. (fault ≡ OutOfMemory) ⊎ IsRefused self.old bytes.now fault) }
        ensures unchanged { OnErr result (self.new ≡ self.old) }
        ensures only_taken { (update : Said) → IsTaken self.old bytes.now update → IsOk result ⊎ (result ≡ Err OutOfMemory) }
        ensures only_refused { (fault : Fault) → IsRefused self.old bytes.now fault →
            (result ≡ Err fault) ⊎ (result ≡ Err OutOfMemory) }
    {
        let update = self.checked(alloc, bytes)?;
        let admitted = Admitted {
            moment: update.moment,
            passed: update.passed,
        };
        self.append(alloc, update, bytes.len())?;
        Ok(admitted)
    }
}
