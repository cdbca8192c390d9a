// The names of files: the folder of a name, and the names of the temporary files beside it.
use std::alloc::{AllocError, Global};

/// What is added to the name of an output for its temporary files.
const UNFINISHED: &str = ".unfinished";

/// What a temporary file is called in place of a name to which nothing can be added.
const SHORT: &str = "liq";

/// How many bytes a name has at most to which the system lets us add the rest.
const LONGEST: usize = 230;

/// The folder that a path leads to, and the name of the path's file there.
pub(crate) fn split_path(path: &str) -> (&str, &str) {
    match path.rsplit_once('/') {
        Some((folder, last)) => (if folder.is_empty() { "/" } else { folder }, last),
        None => (".", path),
    }
}

/// The path of temporary file `number` beside a path: `.unfinished` is added to its name, and then the number from 2
/// on. A name that is too long for that is replaced by `liq`.
pub(crate) fn temporary_path(alloc: Global, path: &str, number: u32) -> Result<String, AllocError> {
    let (folder, last) = split_path(path);
    let mut text = if last.len() <= LONGEST {
        String::from_str(alloc, path)?
    } else {
        format!(in alloc; "{folder}/{SHORT}")?
    };
    text.push_str(UNFINISHED)?;
    if number > 1 {
        write!(text, "{number}")?;
    }
    Ok(text)
}
