ghost use Rattle.std.specs.Prelude.{◌≡◌, ◌≤◌, length, slice_index};
ghost use Rattle.publisher.specs.Place.{AreRising, cut_before, place_at, place_of};

use lc_model::Moment;

/// The cut at which a page begins, and the cuts before and after it, where there are such.
#[derive(Clone, Copy, PartialEq, Eq)]
pub(crate) struct Place {
    pub(crate) previous: Option<Moment>,
    pub(crate) cut: Moment,
    pub(crate) next: Option<Moment>,
}

/// The first moment.
const START: u64 = 0;

/// The place of the page for a moment: the last cut at or before it, else the first one; without cuts it is moment 0. Takes the
/// logarithm of the cuts.
pub(crate) fn place_of(cuts: &[Moment], moment: Moment) -> Place
    requires { AreRising cuts.now }
    ensures { result ≡ place_of cuts.now moment }
{
    let begun = cuts.partition_point(|cut| *cut <= moment);
    // Before the first cut, its page is the one that is meant.
    place_at(cuts, begun.saturating_sub(1))
}

/// The cut at a place among the cuts, with its neighbours.
fn place_at(cuts: &[Moment], at: usize) -> Place
    requires { at ≤ length cuts.now }
    ensures { result ≡ place_at cuts.now at }
{
    Place {
        previous: cut_before(cuts, at),
        cut: cut_at(cuts, at),
        next: cuts.get(at + 1).copied(),
    }
}

fn cut_before(cuts: &[Moment], at: usize) -> Option<Moment>
    ensures { result ≡ cut_before cuts.now at }
{
    if at == 0 {
        None
    } else {
        cuts.get(at - 1).copied()
    }
}

/// The cut at a place, or moment 0.
fn cut_at(cuts: &[Moment], at: usize) -> Moment
    ensures { result ≡ slice_index cuts.now at }
{
    match cuts.get(at) {
        Some(cut) => *cut,
        None => first_moment(),
    }
}

/// Moment 0.
pub(crate) fn first_moment() -> Moment
    ensures { result ≡ 0 }
{
    Moment::new(START).unwrap()
}
