ghost use Rattle.std.specs.Prelude.{◌≡◌, ℕ, List, OnOk};
ghost use Rattle.version_store.specs.Filed.{AreAlike, HasListsOf, IsSomeAt, spots_at, spots_over};

use crate::filed::Filed;
use crate::label::Label;
use crate::spots::Spots;
use lc_model::NoMemory;
use std::alloc::Global;

/// Puts an empty list at a label, unless there is one.
fn put_label(alloc: Global, filed: &mut Filed, label: &Label) -> Result<(), NoMemory>
    ensures alike { AreAlike filed.old filed.new }
    ensures stay { HasListsOf filed.old filed.new }
    ensures has { OnOk result (IsSomeAt filed.new label.now) }
{
    if !filed.contains_key(label) {
        filed.insert(Label::new(alloc, label.bytes())?, Spots::new(alloc))?;
    }
    Ok(())
}

/// Puts an empty list at each label of a patch that has none. The lists of the patch then take no memory. An empty list says what none says, so
/// the spots at each label are as before, also where memory runs out.
pub(crate) fn make_room(alloc: Global, filed: &mut Filed, patch: &Filed) -> Result<(), NoMemory>
    ensures alike { AreAlike filed.old filed.new }
    ensures has { OnOk result (HasListsOf patch.now filed.new) }
{
    for (label, _) in patch {
        put_label(alloc, filed, label)?;
    }
    Ok(())
}

/// Puts the lists of a patch at their labels, in the place of those that are there.
pub(crate) fn put_patch(filed: &mut Filed, patch: Filed)
    ensures { HasListsOf patch filed.old → (text : List ℕ) → spots_at filed.new text ≡ spots_over patch filed.old text }
{
    let mut patch = patch;
    while let Some((label, spots)) = patch.pop_first() {
        let _ = filed.insert(label, spots);
    }
}
