//! What is said of a file.
use gtfs_tables::FileFault;
use rows_common::Draft;

/// A line for a file: its name and its bytes, and that it is read or what is wrong first with it.
pub(super) fn put_file<T>(
    draft: &mut Draft,
    name: &str,
    bytes: &[u8],
    read: &Result<T, FileFault>,
) {
    draft.put(name);
    draft.put_escaped(bytes);
    draft.put(": ");
    match read {
        Ok(_) => draft.put("read"),
        Err(fault) => draft.put_shown(fault),
    }
    draft.put("\n");
}
