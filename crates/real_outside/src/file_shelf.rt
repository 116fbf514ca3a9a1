//! The real shelf: files by their paths.

ghost use Rattle.std.specs.Prelude.{◌≡◌, None};

use crate::loops::{read_up_to, write_all_of};
use lotos_base::{GetFault, PutFault, Shelf, counted};
use std::fs;
use std::rt::Files;

/// A shelf whose names are paths of files. It tells no content, so a missing file is a fault.
#[derive(Drop)]
pub struct FileShelf<'a, R: Files> {
    files: &'a R,
    calls: u64,
    faults: u64,
}

impl<'a, R: Files> FileShelf<'a, R> {
    /// A shelf over these files, with no call made and no fault counted.
    pub fn new(files: &'a R) -> FileShelf<'a, R>
        ensures calls { result.calls ≡ 0 }
        ensures faults { result.faults ≡ 0 }
    {
        FileShelf {
            files,
            calls: 0,
            faults: 0,
        }
    }
}

impl<R: Files> Shelf for FileShelf<'_, R> {
    ghost state = { λ shelf. record { texts = None; faults = shelf.faults; calls = shelf.calls } };

    fn get(&mut self, name: &str, limit: usize, into: &mut Vec<u8>) -> Result<(), GetFault> {
        self.calls = counted(self.calls);
        into.clear();
        let got = match fs::open(self.files, name) {
            Ok(mut file) => read_up_to(&mut file, limit, into),
            Err(_) => Err(GetFault::Failed),
        };
        match got {
            Ok(()) => Ok(()),
            Err(GetFault::NoMemory) => {
                into.clear();
                Err(GetFault::NoMemory)
            }
            Err(_) => {
                into.clear();
                self.faults = counted(self.faults);
                Err(GetFault::Failed)
            }
        }
    }

    fn put(&mut self, name: &str, bytes: &[u8]) -> Result<(), PutFault> {
        self.calls = counted(self.calls);
        let put = match fs::create(self.files, name) {
            Ok(mut file) => write_all_of(&mut file, bytes),
            Err(_) => Err(PutFault::Failed),
        };
        if put.is_err() {
            self.faults = counted(self.faults);
            return Err(PutFault::Failed);
        }
        Ok(())
    }
}
