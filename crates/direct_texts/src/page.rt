//! A page on which trees are printed with the places of their nodes.
//!
//! Each text of a table begins on its second line. A place is printed as `@` and its column there,
//! and with its line and a full stop before the column where it is on another line.

use lotos_base::{Name, Place};
use std::alloc::Global;
use syntax_trees::{Named, VarText};

/// The number of every text that is read here.
pub const NUMBER: u32 = 7;

/// What is printed so far. What there is no memory for is left out, so that the page is not the one
/// that is expected.
#[derive(Drop)]
pub struct Page {
    bytes: Vec<u8>,
}

impl Page {
    /// An empty page.
    pub fn new(alloc: Global) -> Page {
        Page {
            bytes: Vec::new(alloc),
        }
    }

    /// What is printed.
    pub fn bytes(&self) -> &[u8] {
        self.bytes.as_slice()
    }

    /// Prints a text.
    pub fn text(&mut self, text: &str) {
        let _ = self.bytes.extend_from_slice(text.as_bytes());
    }

    /// Prints a name as it is spelled.
    pub fn name(&mut self, name: &Name) {
        let _ = self.bytes.extend_from_slice(name.spelled());
    }

    /// Prints a place.
    pub fn place(&mut self, place: Place) {
        if place.text != NUMBER {
            return self.text("@another text");
        }
        let alloc = *self.bytes.allocator();
        let (line, col) = (place.line, place.col);
        let spelled = if line == 2 {
            format!(in alloc; "@{col}")
        } else {
            format!(in alloc; "@{line}.{col}")
        };
        if let Ok(spelled) = spelled {
            self.text(spelled.as_str());
        }
    }

    /// Prints `name@place`.
    pub fn placed(&mut self, place: Place, name: &Name) {
        self.name(name);
        self.place(place);
    }
}

/// Prints names as `{a@1 b@3}`.
pub fn names(page: &mut Page, list: &[Named]) {
    page.text("{");
    let mut is_first = true;
    for named in list {
        if !is_first {
            page.text(" ");
        }
        page.placed(named.0, &named.1);
        is_first = false;
    }
    page.text("}");
}

/// Prints a variable as `x@1:S@3`.
pub fn variable(page: &mut Page, declared: &VarText) {
    page.placed(declared.place, &declared.name);
    page.text(":");
    page.placed(declared.sort_place, &declared.sort);
}

/// Prints variables as `{x@1:S@6 y@4:S@6}`.
pub fn variables(page: &mut Page, list: &[VarText]) {
    page.text("{");
    let mut is_first = true;
    for declared in list {
        if !is_first {
            page.text(" ");
        }
        variable(page, declared);
        is_first = false;
    }
    page.text("}");
}
