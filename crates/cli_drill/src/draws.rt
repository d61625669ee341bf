ghost use Rattle.std.specs.Prelude.{◌≡◌, ◌+◌, ◌*◌, ◌/◌, ◌%◌, ◌^◌, ◌<◌, IfOk};
ghost use Rattle.cli_drill.specs.Draws.{AreBits, drawn, next_state};

use lc_model::NoMemory;
use std::alloc::Global;

/// How many numbers are drawn: two for each of ten times twenty entities, and two for each of twenty questions.
pub(crate) const DRAWS: usize = 440;

/// The upper bits of all draws from a seed.
pub(crate) fn draw_all(alloc: Global, seed: u32) -> Result<Vec<u32>, NoMemory>
    ensures { IfOk result (λ bits. AreBits seed DRAWS bits.items) }
{
    let mut state = u64::from(seed);
    let mut bits = Vec::with_capacity(alloc, DRAWS)?;
    'draws: while bits.len() < DRAWS {
        state = next_state(state);
        bits.push((state >> 33) as u32)?;
    }
    Ok(bits)
}

/// The state after another one.
fn next_state(state: u64) -> u64
    ensures { result ≡ next_state state }
{
    state
        .wrapping_mul(6_364_136_223_846_793_005)
        .wrapping_add(1_442_695_040_888_963_407)
}

/// What is drawn at this place among so many numbers from 0 on.
pub(crate) fn draw(seed: u32, bits: &[u32], place: usize, among: u32) -> u32
    requires bits { AreBits seed DRAWS bits.now }
    requires place { place < DRAWS }
    requires some { 0 < among }
    ensures value { result ≡ drawn seed place among }
    ensures below { result < among }
{
    bits[place] % among
}
