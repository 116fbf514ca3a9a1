//! A shelf over texts in memory.

ghost use Rattle.std.specs.Prelude.{◌≡◌, ℕ, ◌<◌, ◌≤◌, ◌↔◌, [], Some, None, length, OnErr, OnOk, IfSome, MatchResult, MatchOption, option_copied};
ghost use Rattle.lotos_base.specs.Counts.{IsListedCall, Rises, next_count};
ghost use Rattle.lotos_base.specs.Outside.{Gets, GetAnswers, GetCounts, PutLeaves, PutCounts, Puts};
ghost use Rattle.lotos_base.specs.MemShelf.{text_under, IsFirstNamed};

use crate::faults::{GetFault, PutFault};
use crate::outside::Shelf;
use crate::schedule::call_fails;
use std::alloc::AllocError;

/// Texts by name, and the numbers (from 1) of the calls that fail.
#[derive(Debug, Drop)]
pub struct MemShelf {
    files: Vec<(String, Vec<u8>)>,
    failing: Vec<u64>,
    calls: u64,
    faults: u64,
}

impl MemShelf {
    ghost use Rattle.lotos_base.specs.MemShelf.{texts_of, faults_of, calls_of, failing_of};

    /// A shelf with these files, of which the first of two with one name counts, and with no call
    /// made and no fault counted. Takes no memory.
    pub fn new(files: Vec<(String, Vec<u8>)>, failing: Vec<u64>) -> MemShelf
        ensures texts { texts_of result ≡ text_under files.items }
        ensures faults { faults_of result ≡ 0 }
        ensures calls { calls_of result ≡ 0 }
        ensures failing { failing_of result ≡ failing.items }
    {
        MemShelf {
            files,
            failing,
            calls: 0,
            faults: 0,
        }
    }
}

impl Shelf for MemShelf {
    ghost use Rattle.lotos_base.specs.MemShelf.{
      texts_of,
      faults_of,
      calls_of,
      failing_of,
      shelf_state,
    };

    ghost state = { shelf_state };

    fn get(&mut self, name: &str, limit: usize, into: &mut Vec<u8>) -> Result<(), GetFault>
        ensures answers { GetAnswers result (Some (texts_of self.old)) name.now limit into.new.items }
        ensures emptied { OnErr result (into.new.items ≡ []) }
        ensures within { length into.new.items ≤ limit }
        ensures texts { texts_of self.new ≡ texts_of self.old }
        ensures calls { calls_of self.new ≡ next_count (calls_of self.old) }
        ensures counts { GetCounts result (faults_of self.old) (faults_of self.new) }

        // The calls fail whose number is listed, and no others.
        ensures fails { (result ≡ Err GetFault.Failed)
            ↔ IsListedCall (failing_of self.old) (calls_of self.old) }
        ensures failing { failing_of self.new ≡ failing_of self.old }
    {
        into.clear();
        if call_fails(self.failing.as_slice(), &mut self.calls, &mut self.faults) {
            return Err(GetFault::Failed);
        }
        let Some(text) = text_named(self.files.as_slice(), name) else {
            return Err(GetFault::Missing);
        };
        let kept = text.len().min(limit);
        match into.extend_from_slice(&text[..kept]) {
            Ok(()) => Ok(()),
            Err(_) => Err(GetFault::NoMemory),
        }
    }

    fn put(&mut self, name: &str, bytes: &[u8]) -> Result<(), PutFault>
        ensures leaves { PutLeaves result (texts_of self.old) (texts_of self.new) name.now bytes.now }
        ensures calls { calls_of self.new ≡ next_count (calls_of self.old) }
        ensures counts { PutCounts result (faults_of self.old) (faults_of self.new) }

        // The calls fail whose number is listed, and no others.
        ensures fails { (result ≡ Err PutFault.Failed)
            ↔ IsListedCall (failing_of self.old) (calls_of self.old) }
        ensures failing { failing_of self.new ≡ failing_of self.old }
    {
        if call_fails(self.failing.as_slice(), &mut self.calls, &mut self.faults) {
            return Err(PutFault::Failed);
        }
        match store(&mut self.files, name, bytes) {
            Ok(()) => Ok(()),
            Err(AllocError) => Err(PutFault::NoMemory),
        }
    }
}

/// The text of the first file with this name.
fn text_named<'a>(files: &'a [(String, Vec<u8>)], name: &str) -> Option<&'a [u8]>
    ensures { option_copied result ≡ text_under files.now name.now }
{
    let index = index_named(files, name)?;
    Some(files[index].1.as_slice())
}

/// The index of the first file with this name.
fn index_named(files: &[(String, Vec<u8>)], name: &str) -> Option<usize>
    ensures { MatchOption result (text_under files.now name.now ≡ None)
        (IsFirstNamed files.now name.now) }
{
    for (index, file) in files.iter().enumerate() {
        if file.0.as_str() == name {
            return Some(index);
        }
    }
    None
}

/// Makes `bytes` the text under `name`: in the first file of that name, or in a new one.
fn store(files: &mut Vec<(String, Vec<u8>)>, name: &str, bytes: &[u8]) -> Result<(), AllocError>
    ensures stored { OnOk result (Puts (text_under files.old.items) (text_under files.new.items)
        name.now bytes.now) }
    ensures unchanged { OnErr result (files.new.items ≡ files.old.items) }
{
    let alloc = *files.allocator();
    let text = Vec::from_slice(alloc, bytes)?;
    match index_named(files.as_slice(), name) {
        Some(index) => files[index].1 = text,
        None => {
            let owned = String::from_str(alloc, name)?;
            files.push((owned, text))?;
        }
    }
    Ok(())
}
