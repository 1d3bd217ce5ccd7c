//! Inputs and sinks in memory, and words.

use inp_edge::{Fails, MemFile, MemFiles, MemInput, MemSink};
use std::alloc::{AllocError, Global};
use std::test::Fail;

/// Files of these names and bytes.
pub fn files_of(alloc: Global, files: &[(&str, &[u8])]) -> Result<MemFiles, Fail> {
    let mut told = MemFiles::new(alloc);
    for (name, bytes) in files {
        let bytes = bytes.to_vec(alloc)?;
        told.push(MemFile::new(String::from_str(alloc, name)?, bytes))?;
    }
    Ok(told)
}

/// The calls of these numbers.
pub fn fails_of(alloc: Global, fails: &[u64]) -> Result<Fails, AllocError> {
    Ok(Fails::of(fails.to_vec(alloc)?))
}

/// An input with these files, whose calls of these numbers fail.
pub fn input_of(alloc: Global, files: &[(&str, &[u8])], fails: &[u64]) -> Result<MemInput, Fail> {
    Ok(MemInput::new(files_of(alloc, files)?, fails_of(alloc, fails)?))
}

/// A sink with so much room, whose calls of these numbers fail.
pub fn sink_of(alloc: Global, room: usize, fails: &[u64]) -> Result<MemSink, Fail> {
    Ok(MemSink::new(alloc, room, fails_of(alloc, fails)?)?)
}

/// The words of a command line.
pub fn arguments(alloc: Global, texts: &[&str]) -> Result<Vec<String>, AllocError> {
    let mut words = Vec::new(alloc);
    for text in texts {
        words.push(String::from_str(alloc, text)?)?;
    }
    Ok(words)
}
