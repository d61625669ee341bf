ghost use Rattle.std.specs.Prelude.{◌≡◌, ◌≤◌, [], Some, IfOk, IsTrue, length};
ghost use Rattle.std.specs.List.{slice_get};
ghost use Rattle.csa_scan.specs.Numbers.{AreDistinct, AreNumbersOf, Extends};

use crate::guesses::{Guesses, slot_of_run};
use lc_model::{Connection, NoMemory, PlainData, RunKey};
use std::alloc::Global;
use std::collections::BTreeMap;
use std::marker::Model;

/// Runs with numbers, from 0 on, in the order in which they came. A contract sees the list of their keys.
#[derive(Drop)]
pub struct RunNumbers {
    numbers: BTreeMap<RunKey, usize>,
    keys: Vec<RunKey>,
}

impl Model for RunNumbers {
    ghost use Rattle.std.specs.Prelude.{List};
    ghost use Rattle.lc_model.specs.declared.key.RunKey.{RunKey};
    ghost use Rattle.csa_scan.specs.Numbers.{AreNumbers};

    ghost Value = { List RunKey };

    ghost view = { λ n. n.keys.items };

    ghost invariant = { λ n. AreNumbers n.numbers n.keys.items };
}

impl RunNumbers {
    pub fn new(alloc: Global) -> RunNumbers
        ensures { result ≡ [] }
    {
        RunNumbers {
            numbers: BTreeMap::new(alloc),
            keys: Vec::new(alloc),
        }
    }

    pub fn len(&self) -> usize
        ensures value { result ≡ length self.now }
        ensures distinct { AreDistinct self.now }
    {
        self.keys.len()
    }

    pub fn as_slice(&self) -> &[RunKey]
        ensures value { result.now ≡ self.now }
        ensures distinct { AreDistinct result.now }
    {
        self.keys.as_slice()
    }

    /// Whether the run has this number.
    fn has_number(&self, number: usize, key: &RunKey) -> bool
        ensures { IsTrue result → slice_get self.now number ≡ Some key.now }
    {
        match self.keys.get(number) {
            Some(found) => found.cmp(key).is_eq(),
            None => false,
        }
    }

    /// The number of the run, a new one where it has none yet. Takes the logarithm of the runs.
    pub fn number(&mut self, alloc: Global, key: &RunKey) -> Result<usize, NoMemory>
        ensures ok { IfOk result (λ n. slice_get self.new n ≡ Some key.now) }
        ensures grows { Extends self.old self.new }
        ensures no_shorter { length self.old ≤ length self.new }
    {
        if let Some(number) = self.numbers.get(key) {
            return Ok(*number);
        }
        let number = self.keys.len();
        self.keys.reserve(1)?;
        let listed = key.copy(alloc)?;
        let numbered = key.copy(alloc)?;
        self.numbers.insert(numbered, number)?;
        self.keys.push(listed).unwrap();
        Ok(number)
    }
}

/// The number of the run, a new one where it has none yet. Takes the logarithm of the runs where the guess is wrong.
fn guessed_number(
    alloc: Global,
    runs: &mut RunNumbers,
    guesses: &mut Guesses,
    key: &RunKey,
) -> Result<usize, NoMemory>
    ensures ok { IfOk result (λ n. slice_get runs.new n ≡ Some key.now) }
    ensures grows { Extends runs.old runs.new }
    ensures no_shorter { length runs.old ≤ length runs.new }
{
    let slot = slot_of_run(key);
    let guess = guesses.at(slot);
    if runs.has_number(guess, key) {
        return Ok(guess);
    }
    let number = runs.number(alloc, key)?;
    guesses.put(slot, number);
    Ok(number)
}

/// The numbers of the runs of the connections, place by place. Runs that are new get numbers, also where memory ends
/// before the last one. Takes the logarithm of the runs for each connection whose run is not guessed.
pub fn number_each(
    alloc: Global,
    runs: &mut RunNumbers,
    guesses: &mut Guesses,
    list: &[Connection],
) -> Result<Vec<usize>, NoMemory>
    ensures each { IfOk result (λ numbers. AreNumbersOf runs.new list.now numbers.items) }
    ensures grows { Extends runs.old runs.new }
    ensures no_shorter { length runs.old ≤ length runs.new }
{
    let mut numbers = Vec::with_capacity(alloc, list.len())?;
    for connection in list {
        let number = guessed_number(alloc, runs, guesses, &connection.key)?;
        numbers.push(number)?;
    }
    Ok(numbers)
}
