ghost use Rattle.std.specs.Prelude.{◌≡◌, ℕ, List, Some};
ghost use Rattle.rt_protobuf.specs.Parts.{Parts, PartsInto, fields_in};
ghost use Rattle.rt_protobuf.specs.Grammar.{WireField, AreFields};
ghost use Rattle.rt_protobuf.specs.Reading.{parts_of};

/// The law that every list of bytes parts in exactly one way, wherever it is.
pub fn one_parting()
    ensures parts { (place : ℕ) (bytes : List ℕ) → PartsInto place bytes (parts_of place bytes) }
    ensures only { (place : ℕ) (bytes : List ℕ) (parts : Parts) → PartsInto place bytes parts → parts ≡ parts_of place bytes }

    // Bytes are fields and nothing else exactly where they part into these without a fault.
    ensures fields { (place : ℕ) (bytes : List ℕ) (fields : List WireField) →
        AreFields bytes fields → fields_in (parts_of place bytes) ≡ Some fields }
    ensures only_fields { (place : ℕ) (bytes : List ℕ) (fields : List WireField) →
        fields_in (parts_of place bytes) ≡ Some fields → AreFields bytes fields }
{}
