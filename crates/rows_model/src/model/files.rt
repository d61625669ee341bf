//! Directories that are read, and sinks that are written.
use lc_io::{
    File, Folder, FolderFail, MemFolder, MemSink, Sink, SinkFail, SureFolder, SureSink, put_all,
};
use lc_model::{Bytes, Text};
use rows_common::{Unmade, put_bytes, put_line, put_number};
use std::alloc::Global;

pub(super) fn put_files(alloc: Global, text: &mut String) -> Result<(), Unmade> {
    put_sure_folder(alloc, text)?;
    put_folder(alloc, text)?;
    put_sure_sink(alloc, text)?;
    put_sink(alloc, text)
}

/// Three files, two of them of one name: name and text.
const FILES: [(&str, &str); 3] = [("a", "one"), ("a", "two"), ("b", "three")];

fn file(alloc: Global, name: &str, text: &str) -> Result<File, Unmade> {
    let bytes = Bytes::from_list(text.as_bytes().to_vec(alloc)?);
    let name = Text::from_string(String::from_str(alloc, name)?);
    Ok(File { name, bytes })
}

fn files(alloc: Global) -> Result<Vec<File>, Unmade> {
    let mut files = Vec::new(alloc);
    for &(name, text) in &FILES {
        files.push(file(alloc, name, text)?)?;
    }
    Ok(files)
}

/// What comes of the reads in a directory whose reads never fail.
fn put_sure_folder(alloc: Global, text: &mut String) -> Result<(), Unmade> {
    let files = files(alloc)?;
    match SureFolder::new(alloc, files) {
        Ok(mut folder) => put_sure_reads(alloc, text, &mut folder),
        Err(_) => Err(Unmade),
    }
}

fn put_sure_reads(alloc: Global, text: &mut String, folder: &mut SureFolder) -> Result<(), Unmade> {
    put_reads(alloc, text, folder, &["a", "b", "c"])?;
    put_asked(text, folder.asked())
}

/// What comes of the reads in a directory whose second and fourth read fail.
fn put_folder(alloc: Global, text: &mut String) -> Result<(), Unmade> {
    let fails = vec![in alloc; 2, 4]?;
    let files = files(alloc)?;
    match MemFolder::new(alloc, files, fails) {
        Ok(mut folder) => put_some_reads(alloc, text, &mut folder),
        Err(_) => Err(Unmade),
    }
}

fn put_some_reads(alloc: Global, text: &mut String, folder: &mut MemFolder) -> Result<(), Unmade> {
    put_reads(alloc, text, folder, &["a", "a", "c"])?;
    put_reads(alloc, text, folder, &["b", "b"])?;
    put_asked(text, folder.asked())
}

/// A line for each read, and one with the faults up to then.
fn put_reads<F: Folder>(
    alloc: Global,
    text: &mut String,
    folder: &mut F,
    names: &[&str],
) -> Result<(), Unmade> {
    for name in names {
        put_read(text, *name, folder.read(alloc, *name))?;
    }
    put_number(text, "faults of the folder", folder.faults())
}

fn put_read(
    text: &mut String,
    name: &str,
    read: Result<Vec<u8>, FolderFail>,
) -> Result<(), Unmade> {
    match read {
        Ok(bytes) => put_bytes(text, name, bytes.as_slice()),
        Err(FolderFail::Failed) => put_line(text, name, "(failed)"),
        Err(FolderFail::Absent) => put_line(text, name, "(absent)"),
        Err(FolderFail::NoMemory) => Err(Unmade),
    }
}

fn put_asked(text: &mut String, names: &[Text]) -> Result<(), Unmade> {
    for name in names {
        put_line(text, "asked for", name.as_str())?;
    }
    Ok(())
}

/// What comes of the writes to a sink whose writes never fail.
fn put_sure_sink(alloc: Global, text: &mut String) -> Result<(), Unmade> {
    match SureSink::new(alloc) {
        Ok(mut sink) => put_sure_writes(text, &mut sink),
        Err(_) => Err(Unmade),
    }
}

fn put_sure_writes(text: &mut String, sink: &mut SureSink) -> Result<(), Unmade> {
    put_writes(text, sink, &["a line\n", "", "another\n"])?;
    put_bytes(text, "written", sink.written())
}

/// What comes of the writes to a sink whose second write fails.
fn put_sink(alloc: Global, text: &mut String) -> Result<(), Unmade> {
    let fails = vec![in alloc; 2]?;
    match MemSink::new(alloc, fails) {
        Ok(mut sink) => put_some_writes(text, &mut sink),
        Err(_) => Err(Unmade),
    }
}

fn put_some_writes(text: &mut String, sink: &mut MemSink) -> Result<(), Unmade> {
    put_writes(text, sink, &["a line\n", "lost\n"])?;
    put_writes(text, sink, &["another\n"])?;
    put_bytes(text, "written", sink.written())
}

/// A line for each write, and one with the faults up to then.
fn put_writes<S: Sink>(text: &mut String, sink: &mut S, pieces: &[&str]) -> Result<(), Unmade> {
    for piece in pieces {
        put_write(text, put_all(sink, piece.as_bytes()))?;
    }
    put_number(text, "faults of the sink", sink.faults())
}

fn put_write(text: &mut String, write: Result<(), SinkFail>) -> Result<(), Unmade> {
    match write {
        Ok(()) => put_line(text, "write", "done"),
        Err(SinkFail::Failed) => put_line(text, "write", "(failed)"),
        Err(SinkFail::NoMemory) => Err(Unmade),
    }
}
