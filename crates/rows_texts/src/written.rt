//! What is written of a value.
use lc_model::NoMemory;
use rows_common::Draft;

/// A line for a text that was written: its name and its bytes.
pub(crate) fn put_written(draft: &mut Draft, name: &str, written: Result<Vec<u8>, NoMemory>) {
    draft.put(name);
    match written {
        Ok(text) => draft.put_escaped(text.as_slice()),
        Err(NoMemory) => draft.lose(),
    }
    draft.put("\n");
}
