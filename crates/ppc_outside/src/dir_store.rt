// Real files. The store tells nothing of what they hold.
ghost use Rattle.std.specs.Prelude.{◌≡◌, None, OnOk, OnErr};
ghost use Rattle.ppc_outside.specs.System.{dir_state};
ghost use Rattle.ppc_outside.specs.inside.Transfer.{AppendsFront};

use crate::outside::{OutsideError, Store};
use crate::transfer::{read_front, write_whole};
use std::fs;
use std::fs::OpenOptions;
use std::io::ErrorKind;
use std::os::unix::fs::OpenOptionsExt;
use std::path::AsPath;
use std::rt::Files;

/// How many names are tried for the new file that is written beside an old one.
const NAMES: u32 = 100;

/// The permission bits of an executable, before the umask.
const MODE: u32 = 0o777;

/// Files of the operating system, under any runtime that has files. It counts the errors of each call.
#[derive(Drop)]
pub struct DirStore<R: Files + AllocGlobal + Drop> {
    rt: R,
    faults: u64,
    write_faults: u64,
}

// Writes the bytes to a file that is there and is no regular file, such as a device.
fn write_in_place<R: Files>(rt: &R, name: &str, bytes: &[u8]) -> Result<(), OutsideError> {
    match OpenOptions::new().write(true).open(rt, name) {
        Ok(mut file) => {
            if write_whole(&mut file, bytes) {
                Ok(())
            } else {
                Err(OutsideError::Failed)
            }
        }
        Err(_) => Err(OutsideError::Failed),
    }
}

// Makes a new file beside the named one, and answers its name with it.
fn create_beside<R: Files + AllocGlobal>(
    rt: &R,
    name: &str,
) -> Result<(String, R::File), OutsideError> {
    for number in 0..NAMES {
        let Ok(beside) = format!(in rt.alloc(); "{name}.ppclink{number}") else {
            return Err(OutsideError::Memory);
        };
        let opened = OpenOptions::new()
            .write(true)
            .create_new(true)
            .mode(MODE)
            .open(rt, beside.as_str());
        match opened {
            Ok(file) => return Ok((beside, file)),
            Err(error) if error.kind() == ErrorKind::AlreadyExists => {}
            Err(_) => return Err(OutsideError::Failed),
        }
    }
    Err(OutsideError::Failed)
}

// Writes the bytes to a new file beside the named one and renames it, so that the name holds the old bytes or the new ones.
fn write_beside<R: Files + AllocGlobal>(
    rt: &R,
    name: &str,
    bytes: &[u8],
) -> Result<(), OutsideError> {
    let (beside, mut file) = create_beside(rt, name)?;
    let written = write_whole(&mut file, bytes);
    drop(file);
    if written && fs::rename(rt, beside.as_str(), name).is_ok() {
        return Ok(());
    }
    let _ = fs::remove_file(rt, beside.as_str());
    Err(OutsideError::Failed)
}

impl<R: Files + AllocGlobal + Drop> DirStore<R> {
    /// The files that the runtime has, with no error so far.
    pub fn new(rt: R) -> DirStore<R>
        ensures faults { (dir_state result).faults ≡ 0 }
        ensures write_faults { (dir_state result).write_faults ≡ 0 }
    {
        DirStore {
            rt,
            faults: 0,
            write_faults: 0,
        }
    }

    // Makes room for the bytes of a file of the size that the system tells, up to the limit. Where it tells none, or there is no room, the
    // file is read all the same.
    fn make_room(&self, name: &str, limit: usize, into: &mut Vec<u8>)
        ensures { into.new.items ≡ into.old.items }
    {
        if let Ok(found) = fs::metadata(&self.rt, name) {
            let _room = into.reserve_exact(found.len().min(limit as u64) as usize);
        }
    }

    fn read_file(&self, name: &str, limit: usize, into: &mut Vec<u8>) -> Result<(), OutsideError>
        ensures ok { OnOk result (AppendsFront None limit into.old.items into.new.items) }
        ensures err { OnErr result (into.new.items ≡ into.old.items) }
    {
        match OpenOptions::new().read(true).open(&self.rt, name) {
            Ok(mut file) => {
                self.make_room(name, limit, into);
                let _turns = read_front(&mut file, limit, into)?;
                Ok(())
            }
            Err(_) => Err(OutsideError::Failed),
        }
    }

    // A name that stands for no regular file, such as that of a device, is written in place and never replaced; a link
    // is followed to what it leads to.
    fn write_file(&self, name: &str, bytes: &[u8]) -> Result<(), OutsideError> {
        match fs::symlink_metadata(&self.rt, name) {
            Ok(found) if found.is_symlink() => self.write_linked(name, bytes),
            Ok(found) if !found.is_file() => write_in_place(&self.rt, name, bytes),
            _ => write_beside(&self.rt, name, bytes),
        }
    }

    fn write_linked(&self, name: &str, bytes: &[u8]) -> Result<(), OutsideError> {
        let Ok(path) = fs::canonicalize(&self.rt, name) else {
            return write_in_place(&self.rt, name, bytes);
        };
        let target = path.path_text();
        match fs::metadata(&self.rt, target) {
            Ok(found) if found.is_file() => write_beside(&self.rt, target, bytes),
            _ => write_in_place(&self.rt, name, bytes),
        }
    }
}

impl<R: Files + AllocGlobal + Drop> Store for DirStore<R> {
    ghost state = { λ s. dir_state s };

    fn fetch(&mut self, name: &str, limit: usize, into: &mut Vec<u8>) -> Result<(), OutsideError> {
        let result = self.read_file(name, limit, into);
        if let Err(OutsideError::Failed) = result {
            self.faults = self.faults.saturating_add(1);
        }
        result
    }

    fn replace(&mut self, name: &str, bytes: &[u8]) -> Result<(), OutsideError> {
        let result = self.write_file(name, bytes);
        if let Err(OutsideError::Failed) = result {
            self.write_faults = self.write_faults.saturating_add(1);
        }
        result
    }
}
