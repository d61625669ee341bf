ghost use Rattle.std.specs.Prelude.{◌≡◌, IfOk, OnOk, [], ◌∷◌, ◌++◌};
ghost use Rattle.std.specs.List.Sorted.{IsSorted};
ghost use Rattle.change_table.specs.Partners.{AreChildren, all_shown, child_cmp, shown, shown_at};

use lc_model::{Id, Keyed, NoMemory, Stop};
use std::alloc::Global;
use std::cmp::Ordering;

/// A stop with a parent, by its place among the stops. It is looked up by the parent.
#[derive(Clone, Copy)]
pub(crate) struct Child<'a> {
    pub(crate) parent: &'a Id,
    pub(crate) place: usize,
}

impl Keyed for Child<'_> {
    ghost key = { λ child. child.parent.now };

    fn key(&self) -> &Id {
        self.parent
    }
}

fn push_child<'a>(
    children: &mut Vec<Child<'a>>,
    stop: &'a Stop,
    place: usize,
) -> Result<(), NoMemory>
    ensures { OnOk result (shown children.new.items ≡ shown children.old.items ++ shown_at place stop.now) }
{
    if let Some(parent) = &stop.parent {
        children.push(Child { parent, place })?;
    }
    Ok(())
}

fn all_children<'a>(alloc: Global, stops: &'a [Stop]) -> Result<Vec<Child<'a>>, NoMemory>
    ensures { IfOk result (λ children. shown children.items ≡ all_shown 0 stops.now) }
{
    let mut children = Vec::new(alloc);
    for (place, stop) in stops.iter().enumerate() {
        push_child(&mut children, stop, place)?;
    }
    Ok(children)
}

fn by_parent(a: &Child, b: &Child) -> Ordering
    ensures { result ≡ child_cmp a.now b.now }
{
    a.parent.cmp(b.parent)
}

/// The stops with a parent, sorted by their parents.
pub(crate) fn children_of<'a>(alloc: Global, stops: &'a [Stop]) -> Result<Vec<Child<'a>>, NoMemory>
    ensures all { IfOk result (λ children. AreChildren stops.now children.items) }
    ensures sorted { IfOk result (λ children. IsSorted child_cmp children.items) }
{
    let mut children = all_children(alloc, stops)?;
    children.sort_unstable_by(|a, b| by_parent(a, b));
    Ok(children)
}
