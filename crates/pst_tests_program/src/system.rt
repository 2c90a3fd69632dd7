//! Files of the system, in the folder where the program runs.
use crate::output::through_narrow;
use crate::shelves::take;
use pst_io::FileShelf;
use std::alloc::AllocError;
use std::os::unix::fs::{PermissionsExt, symlink};
use std::{fs, io};

// Changes a file: `put NAME` makes one, `empty NAME` one
// without bytes, `link NAME` a link that leads to itself, `close NAME` takes
// all access, and `remove NAME` removes it. Nothing where this is another command.
fn changed(rt: &HostRuntime, command: &str) -> Option<io::Result<()>> {
    let (verb, name) = command.split_once(' ')?;
    match verb {
        "put" => Some(fs::write(rt, name, "some bytes")),
        "empty" => Some(fs::write(rt, name, "")),
        "link" => Some(symlink(rt, name, name)),
        "close" => Some(fs::set_permissions(rt, name, fs::Permissions::from_mode(0))),
        "remove" => Some(fs::remove_file(rt, name)),
        _ => None,
    }
}

/// What the shelf of the system's files answers to commands in turn, among which files are changed,
/// or written by an output: `narrow MOST NAME`.
pub fn files(rt: &HostRuntime, commands: &str) -> Result<String, AllocError> {
    let alloc = rt.alloc();
    let mut shelf = FileShelf::new(rt);
    let mut answer = String::new(alloc);
    for command in commands.split(", ") {
        if !answer.is_empty() {
            answer.push_str(", ")?;
        }
        if let Some(text) = command.strip_prefix("narrow ") {
            answer.push_str(through_narrow(rt, text)?.as_str())?;
            continue;
        }
        match changed(rt, command) {
            Some(Ok(())) => answer.push_str("done")?,
            Some(Err(_)) => answer.push_str("refused")?,
            None => take(alloc, &mut answer, &mut shelf, command)?,
        }
    }
    Ok(answer)
}
