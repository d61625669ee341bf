ghost use Rattle.std.specs.Prelude.{◌≡◌, ◌≢◌, ◌↔◌, ◌⊎◌, IfErr};
ghost use Rattle.timetable.specs.declared.fault.LoadFault.TheVariants.{NoMemory as no_memory};
ghost use Rattle.std.specs.declared.io.ErrorKind.TheVariants.{OutOfMemory};
ghost use Rattle.cli_replay.specs.declared.inputs.refusal.Refusal.TheVariants.{Load, Usage};

use cli_replay::Refusal;
use lc_model::NoMemory;
use std::env;
use std::io::ErrorKind;

/// The arguments after the program's name, in their order, or why they cannot be read. The kit records nothing of the environment: no contract says
/// what `env::args` returns, and none can say here that these are its arguments.
pub(crate) fn words_of(rt: &HostRuntime) -> Result<Vec<String>, Refusal>
    ensures { IfErr result (λ refusal. (refusal ≡ Usage) ⊎ (refusal ≡ Load no_memory)) }
{
    match env::args(rt) {
        Ok(words) => Ok(words.skip(1).collect(rt.alloc()).map_err(NoMemory::from)?),
        Err(e) => Err(refusal_of(e.kind())),
    }
}

/// What arguments are refused for that cannot be read: no command has one that is not UTF-8.
fn refusal_of(kind: ErrorKind) -> Refusal
    ensures no_memory { (result ≡ Load no_memory) ↔ (kind ≡ OutOfMemory) }
    ensures usage { (result ≡ Usage) ↔ (kind ≢ OutOfMemory) }
{
    match kind {
        ErrorKind::OutOfMemory => Refusal::from(NoMemory),
        _ => Refusal::Usage,
    }
}
