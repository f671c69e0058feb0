//! Files and folders by the texts of their paths. The standard library of the kit takes paths that
//! are UTF-8 alone, and refuses any other one here. In the crate for Rust all paths are taken.

use std::fs::{File, OpenOptions};
use std::io::ErrorKind;
use std::{fs, io};

/// Whether a path leads to a folder, a regular file, or something else.
#[derive(Clone, Copy)]
pub struct FileType {
    is_dir: bool,
    is_file: bool,
}

impl FileType {
    /// Returns whether it is a folder.
    pub fn is_dir(&self) -> bool {
        self.is_dir
    }

    /// Returns whether it is a regular file.
    pub fn is_file(&self) -> bool {
        self.is_file
    }
}

/// An entry of a folder.
#[derive(Drop)]
pub struct DirEntry {
    path: String,
    /// Whether its name is not UTF-8, so that its path is not known.
    is_unnamed: bool,
}

/// Opens a file as `options` say.
pub fn open_with(rt: &HostRuntime, options: &OpenOptions, path: &str) -> io::Result<File> {
    options.open(rt, path)
}

/// Opens a file, to be read.
pub fn open(rt: &HostRuntime, path: &str) -> io::Result<File> {
    fs::open(rt, path)
}

/// Returns what a path leads to. Its name is that of the standard library, which says more.
pub fn metadata(rt: &HostRuntime, path: &str) -> io::Result<FileType> {
    let found = fs::metadata(rt, path)?;
    Ok(FileType {
        is_dir: found.is_dir(),
        is_file: found.is_file(),
    })
}

/// Returns the path from the root on, without links.
pub fn canonicalize(rt: &HostRuntime, path: &str) -> io::Result<String> {
    let whole_path = fs::canonicalize(rt, path)?;
    Ok(String::from_str(rt.alloc(), whole_path.as_str())?)
}

/// Returns the path that a link has in it.
pub fn read_link(rt: &HostRuntime, path: &str) -> io::Result<String> {
    let target = fs::read_link(rt, path)?;
    Ok(String::from_str(rt.alloc(), target.as_str())?)
}

/// Removes a file.
pub fn remove_file(rt: &HostRuntime, path: &str) -> io::Result<()> {
    fs::remove_file(rt, path)
}

/// Returns the entries of a folder, in any order.
pub fn read_dir(rt: &HostRuntime, path: &str) -> io::Result<Vec<DirEntry>> {
    let mut entries = Vec::new(rt.alloc());
    for entry in fs::read_dir(rt, path)? {
        let mut entry_path = String::new(rt.alloc());
        let mut is_unnamed = false;
        match entry {
            Ok(entry) => {
                entry_path.push_str(path)?;
                entry_path.push('/')?;
                entry_path.push_str(entry.file_name())?;
            }
            Err(error) if error.kind() == ErrorKind::InvalidFilename => is_unnamed = true,
            Err(error) => return Err(error),
        }
        entries.push(DirEntry {
            path: entry_path,
            is_unnamed,
        })?;
    }
    Ok(entries)
}

impl DirEntry {
    /// Returns its name, or nothing if that is not known.
    pub fn file_name(&self) -> &str {
        match self.path.as_str().rsplit_once('/') {
            Some((_, name)) => name,
            None => "",
        }
    }

    /// Returns what it is, where a link is one.
    pub fn file_type(&self, rt: &HostRuntime) -> io::Result<FileType> {
        if self.is_unnamed {
            return Err(io::Error::from(ErrorKind::InvalidFilename));
        }
        let found = fs::symlink_metadata(rt, self.path.as_str())?;
        Ok(FileType {
            is_dir: found.is_dir(),
            is_file: found.is_file(),
        })
    }
}
