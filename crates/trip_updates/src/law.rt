ghost use Rattle.std.specs.Prelude.{◌≡◌, ℕ, List, None};
ghost use Rattle.lc_model.specs.declared.versions.update.Update.{Update};
ghost use Rattle.trip_updates.specs.Message.{IsMessage};
ghost use Rattle.trip_updates.specs.Faults.{fault_of};

/// The law that every list of bytes either is a message of exactly one update, or has a first fault, and never both.
pub fn one_meaning()
    ensures one { (bytes : List ℕ) → fault_of bytes ≡ None → (update : Update) × IsMessage bytes update }
    ensures same { (bytes : List ℕ) (a b : Update) → IsMessage bytes a → IsMessage bytes b → a ≡ b }
    ensures not_both { (bytes : List ℕ) (a : Update) → IsMessage bytes a → fault_of bytes ≡ None }
{}
