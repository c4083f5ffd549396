//! Files by name, in a list.
use std::alloc::{AllocError, Global};

/// A file by name.
#[derive(Drop)]
pub struct File {
    pub name: String,
    pub bytes: Vec<u8>,
}

/// The bytes of the file of this name, or None where it is not there.
pub fn file_of<'a>(files: &'a [File], name: &str) -> Option<&'a [u8]> {
    for file in files {
        if file.name.as_str() == name {
            return Some(file.bytes.as_slice());
        }
    }
    None
}

/// Puts the bytes in the place of the file of this name, or after the others. After want of memory nothing has changed.
pub fn put_file(
    alloc: Global,
    files: &mut Vec<File>,
    name: &str,
    bytes: Vec<u8>,
) -> Result<(), AllocError> {
    for file in files.iter_mut() {
        if file.name.as_str() == name {
            file.bytes = bytes;
            return Ok(());
        }
    }
    let name = String::from_str(alloc, name)?;
    files.push(File { name, bytes })?;
    Ok(())
}

/// Puts a copy of the bytes in the place of the file of this name, or after the others.
pub fn copy_file(
    alloc: Global,
    files: &mut Vec<File>,
    name: &str,
    bytes: &[u8],
) -> Result<(), AllocError> {
    put_file(alloc, files, name, Vec::from_slice(alloc, bytes)?)
}

/// Puts copies of the files to the others.
pub fn copy_files(alloc: Global, files: &mut Vec<File>, from: &[File]) -> Result<(), AllocError> {
    for file in from {
        copy_file(alloc, files, file.name.as_str(), file.bytes.as_slice())?;
    }
    Ok(())
}
