//! What the files of the system hold, and what its standard output takes.
use lc_edge::{DirFolder, StdSink};
use lc_io::{Folder, FolderFail, Sink, put_all};
use rows_common::Draft;
use std::alloc::Global;
use std::str;

/// The file of the directory `data`, an absent one, a name that no file can have, and a directory, which is no file.
static NAMES: [&str; 4] = ["stops.txt", "absent.txt", "stops\0.txt", "."];

/// A line for each row of `NAMES`.
pub(super) fn put_files(alloc: Global, draft: &mut Draft, rt: &HostRuntime) {
    let mut folder = DirFolder::new(rt);
    for name in &NAMES {
        draft.put_escaped(name.as_bytes());
        let read = folder.read(alloc, *name);
        put_read(draft, read, folder.faults());
    }
}

/// A file, in which the end of each line is written out, or why there is none; and the count of faults.
fn put_read(draft: &mut Draft, read: Result<Vec<u8>, FolderFail>, faults: u64) {
    match read {
        Ok(bytes) => put_file(draft, bytes.as_slice()),
        Err(fail) => draft.put(word(fail)),
    }
    draft.put("faults ");
    draft.put_shown(&faults);
    draft.put("\n");
}

fn word(fail: FolderFail) -> &'static str {
    match fail {
        FolderFail::Absent => ": absent, ",
        FolderFail::Failed => ": failed, ",
        FolderFail::NoMemory => ": no memory, ",
    }
}

fn put_file(draft: &mut Draft, bytes: &[u8]) {
    let Ok(file) = str::from_utf8(bytes) else {
        return draft.lose();
    };
    draft.put(": ");
    for line in file.split('\n') {
        draft.put_all(&["\"", line, "\" "]);
    }
}

/// The system's standard output takes a line, which comes before all others.
pub(super) fn put_output(draft: &mut Draft, rt: &HostRuntime) {
    let mut out = StdSink::new(rt);
    let written = put_all(&mut out, b"a line of a test\n").is_ok();
    draft.put("standard output: written ");
    draft.put_shown(&written);
    draft.put(" faults ");
    draft.put_shown(&out.faults());
    draft.put("\n");
}
