ghost use Rattle.std.specs.Prelude.{◌≡◌, ◌≢◌, ◌++◌, ℕ, List, take};
ghost use Rattle.http_text.specs.declared.taken.Taken.{Taken};
ghost use Rattle.http_text.specs.declared.taken.Taken.TheVariants.{Whole, NotYet};
ghost use Rattle.http_text.specs.Taken.{Takes};

/// Of given bytes one answer is right.
pub fn one_taking()
    ensures { (bytes : List ℕ) (a b : Taken) → Takes bytes a → Takes bytes b → a ≡ b }
{}

/// An answer that is not "not yet" stays right under more bytes: the same request, or the same refusal.
pub fn taking_stays()
    ensures answer { (bytes more : List ℕ) (taken : Taken) → Takes bytes taken → taken ≢ NotYet
        → Takes (bytes ++ more) taken }
    ensures request { (bytes more : List ℕ) (n : ℕ) → Takes bytes (Whole n) → take n (bytes ++ more) ≡ take n bytes }
{}
