ghost use Rattle.std.specs.Prelude.{◌≡◌, ℕ, List, Result, Ok};
ghost use Rattle.connection_uri.specs.Base.{BaseParts};
ghost use Rattle.lc_model.specs.declared.doc.StopsDoc.{StopsDoc};
ghost use Rattle.page_json.specs.PageReading.{page_of_bytes};
ghost use Rattle.page_json.specs.ObjectMembers.Reading.{HasResult};
ghost use Rattle.page_json.specs.StopsReading.{doc_of_bytes};
ghost use Rattle.page_json.specs.Valid.{IsValidDoc, IsValidPage};
ghost use Rattle.page_json.specs.declared.object_members.fault.PageFault.{PageFault};
ghost use Rattle.page_json.specs.declared.page.Page.{Page};

/// Bytes say one page at most, or one stops document at most, or have one first fault.
pub fn one_reading()
    ensures page { (base : BaseParts) (bytes : List ℕ) (a b : Result Page PageFault)
        → page_of_bytes base bytes a → page_of_bytes base bytes b → a ≡ b }
    ensures stops { (bytes : List ℕ) (a b : Result StopsDoc PageFault)
        → doc_of_bytes bytes a → doc_of_bytes bytes b → a ≡ b }
{}

/// All bytes have a reading, and the law gives it: a page or its first fault, and a stops document or its first fault.
pub fn some_reading()
    ensures page { (base : BaseParts) (bytes : List ℕ) → HasResult (page_of_bytes base bytes) }
    ensures stops { (bytes : List ℕ) → HasResult (doc_of_bytes bytes) }
{}

/// The page or the stops document that bytes say is valid, whoever reads them.
pub fn readings_are_valid()
    ensures page { (base : BaseParts) (bytes : List ℕ) (page : Page) → page_of_bytes base bytes (Ok page)
        → IsValidPage page }
    ensures stops { (bytes : List ℕ) (doc : StopsDoc) → doc_of_bytes bytes (Ok doc) → IsValidDoc doc }
{}
