//! Data files, read line by line.

use crate::cases::{Case, File, Left, text_named};
use crate::escapes::{expand, number};
use crate::faults::Fault;
use crate::words::{one_word, words};
use std::alloc::Global;
use std::mem;

/// The text to which a line of text belongs.
#[derive(Clone, Copy)]
enum Open {
    Nothing,
    File,
    Input,
    Prints,
    Left,
}

/// A data file as far as it was read: the files of all its cases, the case of the last lines, and
/// how many cases had ended before it.
#[derive(Drop)]
pub struct Reader {
    alloc: Global,
    shared: Vec<File>,
    case: Case,
    open: Open,
    is_in_case: bool,
    count: u64,
}

impl Reader {
    /// A data file of which nothing is read.
    pub fn new(alloc: Global) -> Reader {
        Reader {
            alloc,
            shared: Vec::new(alloc),
            case: Case::named(alloc, String::new(alloc)),
            open: Open::Nothing,
            is_in_case: false,
            count: 0,
        }
    }

    /// How many cases have ended.
    pub fn count(&self) -> u64 {
        self.count
    }

    /// The case of the last lines, and the texts that lie on the shelf of each case.
    pub fn ended_case(&mut self) -> (&mut Case, &[File]) {
        (&mut self.case, self.shared.as_slice())
    }

    /// Ends the case of the last lines, and answers whether there is one.
    pub fn end(&mut self) -> Result<bool, Fault> {
        if !self.is_in_case {
            return Ok(false);
        }
        let wanted = &self.case.wanted;
        if self.case.words.is_none() || wanted.prints.is_none() || wanted.status.is_none() {
            return Err(Fault::Malformed("a case has words, prints and status"));
        }
        self.is_in_case = false;
        self.count = self.count.saturating_add(1);
        Ok(true)
    }

    /// Begins a case.
    pub fn begin(&mut self, name: &str) -> Result<(), Fault> {
        let name = String::from_str(self.alloc, name)?;
        if self.count == 0 {
            self.shared = mem::replace(&mut self.case.files, Vec::new(self.alloc));
        }
        self.case = Case::named(self.alloc, name);
        self.is_in_case = true;
        self.open = Open::Nothing;
        Ok(())
    }

    /// Reads a line that begins no case.
    pub fn read(&mut self, line: &str) -> Result<(), Fault> {
        let bytes = line.as_bytes();
        match bytes {
            [] | [b'#', ..] => Ok(()),
            [b'|', text @ ..] => self.add(text, b"\n"),
            [b'!', text @ ..] => self.add(text, b""),
            [b':', text @ ..] => self.add_expanded(text, b"\n"),
            [b'?', text @ ..] => self.add_expanded(text, b""),
            _ => self.read_directive(line),
        }
    }

    /// Puts the text and what is behind it at the end of the open text.
    fn add(&mut self, text: &[u8], behind: &[u8]) -> Result<(), Fault> {
        let open = self.open_text()?;
        open.extend_from_slice(text)?;
        open.extend_from_slice(behind)?;
        Ok(())
    }

    /// Puts what the text stands for and what is behind it at the end of the open text.
    fn add_expanded(&mut self, text: &[u8], behind: &[u8]) -> Result<(), Fault> {
        let open = self.open_text()?;
        expand(text, open)?;
        open.extend_from_slice(behind)?;
        Ok(())
    }

    /// The text to which a line of text belongs.
    fn open_text(&mut self) -> Result<&mut Vec<u8>, Fault> {
        let text = match self.open {
            Open::Nothing => None,
            Open::File => self.case.files.last_mut().map(|file| &mut file.1),
            Open::Input => self.case.input.as_mut(),
            Open::Prints => self.case.wanted.prints.as_mut(),
            Open::Left => match self.case.wanted.leaves.last_mut() {
                Some(left) => left.text.as_mut(),
                None => None,
            },
        };
        text.ok_or(Fault::Malformed("a line of no text"))
    }

    /// Reads a line that is neither empty nor a line of text.
    fn read_directive(&mut self, line: &str) -> Result<(), Fault> {
        let (word, rest) = line.split_once(' ').unwrap_or((line, ""));
        self.open = Open::Nothing;
        if word == "file" {
            return self.read_file(rest);
        }
        if !self.is_in_case {
            return Err(Fault::Malformed("a case is wanted"));
        }
        match word {
            "words" => set(&mut self.case.words, words(self.alloc, rest)?),
            "input" | "prints" => self.read_text(word, rest),
            "status" => set(&mut self.case.wanted.status, number(rest.as_bytes())?),
            "leaves" => self.read_leaves(rest),
            "room" => set(&mut self.case.room, number(rest.as_bytes())?),
            "takes" => set(&mut self.case.takes, number(rest.as_bytes())?),
            "cuts" => set_numbers(&mut self.case.cuts, rest),
            "fails" => self.read_fails(rest),
            "only" => self.read_only(rest),
            _ => Err(Fault::Malformed("an unknown line")),
        }
    }

    /// Opens the text of a file.
    fn read_file(&mut self, rest: &str) -> Result<(), Fault> {
        let name = one_word(self.alloc, rest)?;
        if text_named(self.case.files.as_slice(), name.as_str()).is_some() {
            return Err(Fault::Malformed("a second file of this name"));
        }
        self.case.files.push((name, Vec::new(self.alloc)))?;
        self.open = Open::File;
        Ok(())
    }

    /// Opens the text of the input or of what is printed.
    fn read_text(&mut self, word: &str, rest: &str) -> Result<(), Fault> {
        if !rest.is_empty() {
            return Err(Fault::Malformed("nothing stands behind this word"));
        }
        let empty = Vec::new(self.alloc);
        if word == "input" {
            self.open = Open::Input;
            set(&mut self.case.input, empty)
        } else {
            self.open = Open::Prints;
            set(&mut self.case.wanted.prints, empty)
        }
    }

    /// Opens the text that is left under a name, or says that nothing is.
    fn read_leaves(&mut self, rest: &str) -> Result<(), Fault> {
        let (name, text) = match rest.strip_suffix(" nothing") {
            Some(name) => (name, None),
            None => (rest, Some(Vec::new(self.alloc))),
        };
        self.open = Open::Left;
        let name = one_word(self.alloc, name)?;
        self.case.wanted.leaves.push(Left { name, text })?;
        Ok(())
    }

    /// Reads the numbers of the calls that fail.
    fn read_fails(&mut self, rest: &str) -> Result<(), Fault> {
        let fails = &mut self.case.fails;
        match rest.split_once(' ') {
            Some(("shelf", numbers)) => set_numbers(&mut fails.shelf, numbers),
            Some(("input", numbers)) => set_numbers(&mut fails.input, numbers),
            Some(("output", numbers)) => set_numbers(&mut fails.output, numbers),
            _ => Err(Fault::Malformed("shelf, input or output is wanted")),
        }
    }

    /// Cuts the text of a file of the case or of all cases to its first bytes.
    fn read_only(&mut self, rest: &str) -> Result<(), Fault> {
        let Some((name, count)) = rest.rsplit_once(' ') else {
            return Err(Fault::Malformed("a name and a number are wanted"));
        };
        let name = one_word(self.alloc, name)?;
        let count = number(count.as_bytes())? as usize;
        let own = text_named(self.case.files.as_slice(), name.as_str());
        let shared = text_named(self.shared.as_slice(), name.as_str());
        let Some(head) = own.or(shared).and_then(|text| text.get(..count)) else {
            return Err(Fault::Malformed("a text of so many bytes is wanted"));
        };
        let head = Vec::from_slice(self.alloc, head)?;
        self.case
            .files
            .retain(|file| file.0.as_str() != name.as_str());
        self.case.files.push((name, head))?;
        Ok(())
    }
}

/// Gives a part of a case its value, for the first time.
fn set<T: Drop>(place: &mut Option<T>, value: T) -> Result<(), Fault> {
    match place.replace(value) {
        None => Ok(()),
        Some(_) => Err(Fault::Malformed("a second line of this kind")),
    }
}

/// Gives a part of a case its numbers, above 0, for the first time.
fn set_numbers(place: &mut Vec<u64>, text: &str) -> Result<(), Fault> {
    if !place.is_empty() {
        return Err(Fault::Malformed("a second line of this kind"));
    }
    for digits in text.split(' ') {
        let count = number(digits.as_bytes())?;
        if count == 0 {
            return Err(Fault::Malformed("a number above 0 is wanted"));
        }
        place.push(count)?;
    }
    Ok(())
}
