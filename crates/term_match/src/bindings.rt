//! The search for what makes a pattern a term.

ghost use Rattle.sort_terms.specs.TermView.{all_profiled, profiled_of};
ghost use Rattle.std.specs.Option.{option_map};
ghost use Rattle.std.specs.Prelude.{◌≡◌, IfOk};
ghost use Rattle.term_match.specs.FoundView.{found_pairs};
ghost use Rattle.term_match.specs.Search.{all_searched, bound, looked_up, searched};

use lotos_base::NoMemory;
use sort_terms::Term;

/// The pairs found before and those of the pattern's other variables, in the order in which they
/// first stand there, or `None` where the pattern, with what its variables have, is not the term.
#[cycle(search)]
pub fn search<'a>(
    pattern: &Term,
    term: &'a Term,
    found: Vec<(u64, &'a Term)>,
) -> Result<Option<Vec<(u64, &'a Term)>>, NoMemory>
    ensures { IfOk result (λ o. option_map (λ pairs. found_pairs pairs.items) o
        ≡ searched (profiled_of pattern.now) (profiled_of term.now)
        (found_pairs found.entry.items)) }
{
    match pattern {
        Term::Var { number, .. } => bind(*number, term, found),
        Term::Node { op, arguments, .. } => match term {
            Term::Var { .. } => Ok(None),
            Term::Node {
                op: f,
                arguments: parts,
                ..
            } => {
                if *op == *f {
                    search_all(arguments.items(), parts.items(), found)
                } else {
                    Ok(None)
                }
            }
        },
    }
}

// The same for the patterns and terms of two lists.
#[cycle(search)]
fn search_all<'a>(
    patterns: &Vec<Term>,
    terms: &'a Vec<Term>,
    mut found: Vec<(u64, &'a Term)>,
) -> Result<Option<Vec<(u64, &'a Term)>>, NoMemory>
    ensures { IfOk result (λ o. option_map (λ pairs. found_pairs pairs.items) o
        ≡ all_searched (all_profiled patterns.now.items) (all_profiled terms.now.items)
        (found_pairs found.entry.items)) }
{
    if patterns.len() != terms.len() {
        return Ok(None);
    }
    for i in 0..patterns.len() {
        let Some(more) = search(&patterns[i], &terms[i], found)? else {
            return Ok(None);
        };
        found = more;
    }
    Ok(Some(found))
}

// The pairs at a variable: the term has to be what the variable has already, if it has something.
fn bind<'a>(
    number: u64,
    term: &'a Term,
    mut found: Vec<(u64, &'a Term)>,
) -> Result<Option<Vec<(u64, &'a Term)>>, NoMemory>
    ensures { IfOk result (λ o. option_map (λ pairs. found_pairs pairs.items) o
        ≡ bound number (profiled_of term.now) (found_pairs found.entry.items)
        (looked_up number (found_pairs found.entry.items))) }
{
    let Some(known) = value_of(found.as_slice(), number) else {
        found.push((number, term))?;
        return Ok(Some(found));
    };
    if known.same(term) {
        Ok(Some(found))
    } else {
        Ok(None)
    }
}

/// What the first pair with the number has.
pub fn value_of<'a>(found: &[(u64, &'a Term)], number: u64) -> Option<&'a Term>
    ensures { option_map (λ t. profiled_of t.now) result
        ≡ looked_up number (found_pairs found.now) }
{
    for (known, value) in found {
        if *known == number {
            return Some(*value);
        }
    }
    None
}
