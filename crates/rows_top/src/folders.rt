//! The directories that cases run over.
use crate::messages::MESSAGES;
use crate::running::Case;
use lc_io::{File, MemFolder};
use lc_model::{Bytes, Text};
use rows_common::Unmade;
use std::alloc::Global;

/// A directory of the files of the case, of the messages and of a zone, where the read of this number fails.
pub fn folder_of(alloc: Global, case: &Case<'_>, fails: u64) -> Result<MemFolder, Unmade> {
    let files = files_of(alloc, case)?;
    let fails = Vec::from_array(alloc, [fails])?;
    Ok(MemFolder::new(alloc, files, fails)?)
}

fn files_of(alloc: Global, case: &Case<'_>) -> Result<Vec<File>, Unmade> {
    let mut files = Vec::new(alloc);
    push_files(alloc, &mut files, case)?;
    Ok(files)
}

fn push_files(alloc: Global, files: &mut Vec<File>, case: &Case<'_>) -> Result<(), Unmade> {
    push_texts(alloc, files, case.first)?;
    push_texts(alloc, files, case.feed)?;
    push_messages(alloc, files)
}

fn push_texts(alloc: Global, files: &mut Vec<File>, texts: &[(&str, &str)]) -> Result<(), Unmade> {
    for (name, text) in texts {
        push_file(alloc, files, *name, text.as_bytes())?;
    }
    Ok(())
}

fn push_messages(alloc: Global, files: &mut Vec<File>) -> Result<(), Unmade> {
    for (name, bytes) in &MESSAGES {
        push_file(alloc, files, *name, *bytes)?;
    }
    Ok(())
}

fn push_file(alloc: Global, files: &mut Vec<File>, name: &str, bytes: &[u8]) -> Result<(), Unmade> {
    files.push(file_of(alloc, name, bytes)?)?;
    Ok(())
}

fn file_of(alloc: Global, name: &str, bytes: &[u8]) -> Result<File, Unmade> {
    let name = Text::from_string(String::from_str(alloc, name)?);
    let bytes = Bytes::from_list(bytes.to_vec(alloc)?);
    Ok(File { name, bytes })
}
