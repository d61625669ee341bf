ghost use Rattle.std.specs.Prelude.{◌≡◌, ◌<◌, ◌≤◌, ◌++◌, IfOk, OnOk};
ghost use Rattle.cli_drill.specs.Draws.{AreBits};
ghost use Rattle.cli_drill.specs.Script.{ask_row, message_name, message_row, question_rows, script_text, turn_row};

use crate::draws::{DRAWS, draw};
use crate::names::{push_number, push_stop_name};
use crate::network::side_of;
use lc_model::{Moment, NoMemory};
use lc_time::iso_text;
use std::alloc::Global;

/// The script of a seed. Linear in it.
pub(crate) fn script_text(alloc: Global, seed: u32, bits: &[u32]) -> Result<Vec<u8>, NoMemory>
    requires { AreBits seed DRAWS bits.now }
    ensures { IfOk result (λ text. text.items ≡ script_text seed) }
{
    let mut text = Vec::with_capacity(alloc, 20 * 80)?;
    'questions: for question in 0..20 {
        push_question(&mut text, seed, bits, question)?;
    }
    Ok(text)
}

/// Adds a question, a turn of its client, and a message or none.
fn push_question(text: &mut Vec<u8>, seed: u32, bits: &[u32], question: u32) -> Result<(), NoMemory>
    requires bits { AreBits seed DRAWS bits.now }
    requires question { question < 20 }
    ensures { OnOk result (text.new.items ≡ text.old.items ++ question_rows seed question) }
{
    let stops = side_of(seed) * side_of(seed);
    let place = (400 + 2 * question) as usize;
    let from = draw(seed, bits, place, stops);
    let to = (from + 1 + draw(seed, bits, place + 1, stops - 1)) % stops;
    push_ask(text, from, to, question)?;
    push_turn(text, question)?;
    push_message(text, question)
}

fn push_ask(text: &mut Vec<u8>, from: u32, to: u32, question: u32) -> Result<(), NoMemory>
    requires { question < 20 }
    ensures { OnOk result (text.new.items ≡ text.old.items ++ ask_row from to question) }
{
    let leave = Moment::new(1_714_546_800 + 600 * u64::from(question)).unwrap();
    text.extend_from_slice(b"ask,")?;
    push_stop_name(text, from)?;
    text.extend_from_slice(b",")?;
    push_stop_name(text, to)?;
    text.extend_from_slice(b",")?;
    text.extend_from_slice(iso_text(leave).as_slice())?;
    text.extend_from_slice(b"\n")?;
    Ok(())
}

fn push_turn(text: &mut Vec<u8>, question: u32) -> Result<(), NoMemory>
    requires { question < 20 }
    ensures { OnOk result (text.new.items ≡ text.old.items ++ turn_row question) }
{
    text.extend_from_slice(b"turn,")?;
    push_number(text, question + 1)?;
    text.extend_from_slice(b"\n")?;
    Ok(())
}

/// Adds the message that comes after every other question.
fn push_message(text: &mut Vec<u8>, question: u32) -> Result<(), NoMemory>
    ensures { OnOk result (text.new.items ≡ text.old.items ++ message_row question) }
{
    if question % 2 != 0 {
        return Ok(());
    }
    text.extend_from_slice(b"update,")?;
    push_message_name(text, question / 2)?;
    text.extend_from_slice(b"\n")?;
    Ok(())
}

/// Adds the name of the file of a message.
fn push_message_name(text: &mut Vec<u8>, message: u32) -> Result<(), NoMemory>
    ensures { OnOk result (text.new.items ≡ text.old.items ++ message_name message) }
{
    text.extend_from_slice(b"u")?;
    push_number(text, message)?;
    text.extend_from_slice(b".pb")?;
    Ok(())
}
