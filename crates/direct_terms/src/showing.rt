//! Terms as the tables of the cases print them: `x` of number 0 as `$0`, `f(a, b)`, `(a + b)`.

use lotos_base::Form;
use sort_terms::{Sorted, Term};
use std::alloc::{AllocError, Global};
use std::test::Fail;

/// The term's text.
pub fn shown(alloc: Global, term: &Term) -> Result<String, Fail> {
    let mut bytes = Vec::new(alloc);
    show(alloc, term, &mut bytes)?;
    Ok(String::from_utf8(bytes)?)
}

/// Appends the term's text.
pub fn push_shown(alloc: Global, term: &Sorted, text: &mut String) -> Result<(), Fail> {
    let shown = shown(alloc, term.term())?;
    text.push_str(shown.as_str())?;
    Ok(())
}

// Appends the term's text.
#[cycle(showing)]
fn show(alloc: Global, term: &Term, out: &mut Vec<u8>) -> Result<(), AllocError> {
    match term {
        Term::Var { number, .. } => {
            let text = format!(in alloc; "${number}")?;
            out.extend_from_slice(text.as_bytes())
        }
        Term::Node {
            profile,
            arguments,
            ..
        } => {
            let infix = profile.form == Form::Infix;
            if !infix {
                out.extend_from_slice(profile.name.spelled())?;
            }
            show_all(alloc, infix, profile.name.spelled(), arguments.items(), out)
        }
    }
}

// Appends the arguments in brackets, where there are some.
#[cycle(showing)]
fn show_all(
    alloc: Global,
    infix: bool,
    name: &[u8],
    arguments: &Vec<Term>,
    out: &mut Vec<u8>,
) -> Result<(), AllocError> {
    let mut is_first = true;
    for term in arguments {
        push_before(infix, name, is_first, out)?;
        show(alloc, term, out)?;
        is_first = false;
    }
    if !is_first {
        out.extend_from_slice(b")")?;
    }
    Ok(())
}

// Appends what stands before an argument.
fn push_before(
    infix: bool,
    name: &[u8],
    is_first: bool,
    out: &mut Vec<u8>,
) -> Result<(), AllocError> {
    if is_first {
        return out.extend_from_slice(b"(");
    }
    if !infix {
        return out.extend_from_slice(b", ");
    }
    out.extend_from_slice(b" ")?;
    out.extend_from_slice(name)?;
    out.extend_from_slice(b" ")
}
