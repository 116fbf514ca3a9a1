//! Cases: what is run, over what, and what is wanted of it.

use std::alloc::Global;

/// A text on the shelf, under its name.
pub type File = (String, Vec<u8>);

/// What the shelf has at the end under a name: a text, or nothing.
#[derive(Drop)]
pub struct Left {
    pub name: String,
    pub text: Option<Vec<u8>>,
}

/// The numbers, from 1, of the calls that fail.
#[derive(Drop)]
pub struct Fails {
    pub shelf: Vec<u64>,
    pub input: Vec<u64>,
    pub output: Vec<u64>,
}

/// What is to come of a case, or came of it. Before it is read a part is missing.
#[derive(Drop)]
pub struct Outcome {
    pub prints: Option<Vec<u8>>,
    pub status: Option<u64>,
    pub leaves: Vec<Left>,
}

/// A case. Before they are read, its words are missing.
#[derive(Drop)]
pub struct Case {
    pub name: String,
    pub words: Option<Vec<String>>,
    pub files: Vec<File>,
    pub input: Option<Vec<u8>>,
    pub fails: Fails,
    /// How many bytes the output has room for, where it is said.
    pub room: Option<u64>,
    /// How many bytes the output takes at a call, where it is said.
    pub takes: Option<u64>,
    /// How many bytes the first calls of the input give.
    pub cuts: Vec<u64>,
    pub wanted: Outcome,
}

impl Fails {
    fn none(alloc: Global) -> Fails {
        Fails {
            shelf: Vec::new(alloc),
            input: Vec::new(alloc),
            output: Vec::new(alloc),
        }
    }
}

impl Case {
    /// A case of which nothing is read but its name.
    pub fn named(alloc: Global, name: String) -> Case {
        Case {
            name,
            words: None,
            files: Vec::new(alloc),
            input: None,
            fails: Fails::none(alloc),
            room: None,
            takes: None,
            cuts: Vec::new(alloc),
            wanted: Outcome {
                prints: None,
                status: None,
                leaves: Vec::new(alloc),
            },
        }
    }
}

/// The text of the first file with this name.
pub fn text_named<'a>(files: &'a [File], name: &str) -> Option<&'a [u8]> {
    for file in files {
        if file.0.as_str() == name {
            return Some(file.1.as_slice());
        }
    }
    None
}
