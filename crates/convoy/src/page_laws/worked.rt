ghost use Rattle.lc_model.specs.declared.doc.StopsDoc.{StopsDoc as Doc};
ghost use Rattle.lc_model.specs.declared.key.RunKey.{RunKey as Key};
ghost use Rattle.lc_model.specs.declared.query.Query.{Query as Question};
ghost use Rattle.convoy.specs.PageLaws.Worked.{FrontMayBeAllAtOnce, RefusedCuts, WorkedLinks, WorkedNeeded, WorkedSeconds};

/// Values that were worked out by hand: pages and their links, needed pages, and near ones that are refused.
pub fn worked_pages()
    ensures links { (key : Key) → WorkedLinks key }
    ensures needed { (key : Key) (query : Question) → WorkedNeeded key query }
    ensures refused_cuts { RefusedCuts }
    ensures seconds { (key : Key) → WorkedSeconds key }
    ensures not_at_once { (key : Key) (doc : Doc) → ¬ FrontMayBeAllAtOnce }
{}
