ghost use Rattle.lc_model.specs.declared.doc.StopsDoc.{StopsDoc as Doc};
ghost use Rattle.lc_model.specs.declared.key.RunKey.{RunKey as Key};
ghost use Rattle.lc_world.specs.Sides.Worked.{WorkedAsked, WorkedPages, WorkedReplies, WorkedValues};

/// Values that were worked out by hand, which the definitions take: what requests ask for, pages with their links, and replies.
pub fn worked_sides()
    ensures asked { WorkedAsked }
    ensures values { WorkedValues }
    ensures pages { (key : Key) → WorkedPages key }
    ensures replies { (doc : Doc) → WorkedReplies doc }
{}
