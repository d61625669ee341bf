ghost use Rattle.std.specs.Prelude.{◌≡◌, ◌++◌, IfOk};
ghost use Rattle.std.specs.List.{All};
ghost use Rattle.cli_ask.specs.Block.{IsPrintable};
ghost use Rattle.cli_ask.specs.declared.end.ClientEnd.{ClientEnd as End};
ghost use Rattle.cli_replay.specs.ReplayLaws.Replayed.{clients_text_of};

use cli_ask::{ClientEnd, push_client};
use lc_model::NoMemory;
use std::alloc::Global;

/// The lines of the messages, and after them those of the clients. Linear in what it gives.
pub fn text_of(alloc: Global, lines: Vec<u8>, ends: &[ClientEnd]) -> Result<Vec<u8>, NoMemory>
    requires { All (λ (end : End). IsPrintable end.outcome) ends.now }
    ensures { IfOk result (λ text. text.items ≡ lines.items ++ clients_text_of 1 ends.now) }
{
    let mut text = lines;
    'ends: for index in 0..ends.len() {
        push_client(alloc, index + 1, &ends[index], &mut text)?;
    }
    Ok(text)
}
