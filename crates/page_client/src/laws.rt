ghost use Rattle.std.specs.Prelude.{◌≡◌, ℕ, List, Result};
ghost use Rattle.connection_uri.specs.Base.{BaseParts};
ghost use Rattle.lc_model.specs.declared.doc.StopsDoc.{StopsDoc};
ghost use Rattle.lc_model.specs.declared.page.PageName.{PageName};
ghost use Rattle.page_json.specs.declared.page.Page.{Page};
ghost use Rattle.page_client.specs.Gate.{IsGateReply};
ghost use Rattle.page_client.specs.Page.{IsPageReply};
ghost use Rattle.page_client.specs.Stops.{IsStopsReply};
ghost use Rattle.page_client.specs.declared.fault.PeerFault.{PeerFault};

/// A reply says one thing at most, or has one first fault: of the time gate, of the stops document and of each page.
pub fn one_reply()
    ensures gate { (base : BaseParts) (leave : ℕ) (bytes : List ℕ) (a b : Result PageName PeerFault)
        → IsGateReply base leave bytes a → IsGateReply base leave bytes b → a ≡ b }
    ensures stops { (bytes : List ℕ) (a b : Result StopsDoc PeerFault)
        → IsStopsReply bytes a → IsStopsReply bytes b → a ≡ b }
    ensures page { (base : BaseParts) (name : PageName) (bytes : List ℕ) (a b : Result Page PeerFault)
        → IsPageReply base name bytes a → IsPageReply base name bytes b → a ≡ b }
{}
