//! Words and stored files of tables.
use bg_io::StoredFile;
use std::alloc::{AllocError, Global};

pub fn words(alloc: Global, texts: &[&str]) -> Result<Vec<String>, AllocError> {
    let mut made = Vec::new(alloc);
    for text in texts {
        made.push(String::from_str(alloc, text)?)?;
    }
    Ok(made)
}

pub fn stored(alloc: Global, files: &[(&str, &str)]) -> Result<Vec<StoredFile>, AllocError> {
    let mut made = Vec::new(alloc);
    for (name, text) in files {
        let name = String::from_str(alloc, name)?;
        let bytes = text.as_bytes().to_vec(alloc)?;
        made.push(StoredFile { name, bytes })?;
    }
    Ok(made)
}
