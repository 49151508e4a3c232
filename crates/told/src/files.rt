//! A library that keeps why a file was not loaded.
use std::alloc::Global;
use std::fs;
use std::io::{self, Read};
use std::rt::Files;
use ttp_base::{Library, LoadError};

/// A library that hands each load on to another. It counts the loads, and keeps why the last one failed.
#[derive(Drop)]
pub struct NotedFiles<'a, R, L> {
    rt: &'a R,
    files: L,
    // How many files were asked for, and why the last one was not loaded, where the system told it.
    pub(crate) loads: usize,
    pub(crate) why: Option<io::Error>,
}

impl<'a, R: Files, L> NotedFiles<'a, R, L> {
    /// Over a library of the system's files, of which nothing was loaded so far.
    pub fn new(rt: &'a R, files: L) -> NotedFiles<'a, R, L> {
        NotedFiles {
            rt,
            files,
            loads: 0,
            why: None,
        }
    }
}

impl<R: Files, L: Library> Library for NotedFiles<'_, R, L> {
    ghost files = { λ s. L.files s.files };

    fn load(&mut self, alloc: Global, name: &str, limit: usize) -> Result<Vec<u8>, LoadError> {
        self.loads = self.loads.saturating_add(1);
        let loaded = self.files.load(alloc, name, limit);
        if let Err(LoadError::Failed) = loaded {
            self.why = trouble_with(self.rt, name);
        }
        loaded
    }
}

// Why a file can't be read: it is tried again. What is neither a file nor a folder is not opened twice, since whoever
// opens a pipe may wait for its other end.
fn trouble_with<R: Files>(rt: &R, name: &str) -> Option<io::Error> {
    match fs::metadata(rt, name) {
        Err(error) => Some(error),
        Ok(about) => {
            if !about.is_file() && !about.is_dir() {
                return None;
            }
            match fs::open(rt, name) {
                Err(error) => Some(error),
                Ok(mut file) => file.read(&mut [0]).err(),
            }
        }
    }
}
