//! A plain, slow program on terms, which shows that the definitions can be computed as they stand.

ghost use Rattle.std.specs.Prelude.{◌≡◌, ◌↔◌, ◌∷◌, ◌<◌, [], IfOk, IsTrue, length};
ghost use Rattle.std.specs.Option.{option_map};
ghost use Rattle.lotos_base.specs.Path.{put_at, subterm as subterm_at, with_argument as argument_put};
ghost use Rattle.lotos_base.specs.PlainView.{arguments_of, pairs_of_values, term_of_plain};
ghost use Rattle.lotos_base.specs.Sorting.{AreGround, IsGround, Occurs, OccursAmong};
ghost use Rattle.lotos_base.specs.Substitution.{all_substituted, binding, substituted};
ghost use Rattle.lotos_base.specs.Term.{variable};

use std::alloc::AllocError;

/// A term: a variable with its number and sort, or an operation with its number and its arguments.
#[derive(Drop)]
pub enum PlainTerm {
    Variable {
        number: u64,
        sort: u32,
    },
    Node {
        operation: u32,
        arguments: Vec<PlainTerm>,
    },
}

impl PlainTerm {
    /// Whether the two terms are identical.
    #[cycle(identity)]
    pub fn same(&self, other: &PlainTerm) -> bool
        ensures { IsTrue result ↔ (term_of_plain self.now ≡ term_of_plain other.now) }
    {
        match self {
            PlainTerm::Variable { number, sort } => other.is_variable(*number, *sort),
            PlainTerm::Node {
                operation,
                arguments,
            } => match other {
                PlainTerm::Variable { .. } => false,
                PlainTerm::Node {
                    operation: f,
                    arguments: others,
                } => { *operation == *f && all_same(arguments, others) }
            },
        }
    }

    /// Whether the term has no variable.
    #[cycle(ground)]
    pub fn is_ground(&self) -> bool
        ensures { IsTrue result ↔ IsGround (term_of_plain self.now) }
    {
        match self {
            PlainTerm::Variable { .. } => false,
            PlainTerm::Node { arguments, .. } => are_ground(arguments),
        }
    }

    /// Whether the variable with this number and sort occurs in the term.
    #[cycle(occurrence)]
    pub fn has_variable(&self, number: u64, sort: u32) -> bool
        ensures { IsTrue result ↔ Occurs number sort (term_of_plain self.now) }
    {
        match self {
            PlainTerm::Variable { number: n, sort: s } => *n == number && *s == sort,
            PlainTerm::Node { arguments, .. } => any_has_variable(arguments, number, sort),
        }
    }

    // Whether the term is the variable with this number and sort.
    fn is_variable(&self, number: u64, sort: u32) -> bool
        ensures { IsTrue result ↔ (variable number sort ≡ term_of_plain self.now) }
    {
        match self {
            PlainTerm::Variable { number: n, sort: s } => number == *n && sort == *s,
            PlainTerm::Node { .. } => false,
        }
    }

    /// The subterm at the path of argument positions, counted from 0, if the path leads to one.
    pub fn subterm(&self, path: &[usize]) -> Option<&PlainTerm>
        ensures { option_map (λ t. term_of_plain t.now) result
            ≡ subterm_at path.now (term_of_plain self.now) }
    {
        let mut part = self;
        for position in path {
            part = part.argument(*position)?;
        }
        Some(part)
    }

    /// The term with the part put at the path, or `None` where the path leads to no subterm.
    pub fn with_part(
        &self,
        path: &[usize],
        part: &PlainTerm,
    ) -> Result<Option<PlainTerm>, AllocError>
        ensures { IfOk result
            (λ o. option_map (λ t. term_of_plain t) o
            ≡ put_at path.now (term_of_plain part.now) (term_of_plain self.now)) }
    {
        let [position, rest @ ..] = path else {
            return Ok(Some(part.copy()?));
        };
        let PlainTerm::Node {
            operation,
            arguments,
        } = self
        else {
            return Ok(None);
        };
        let Some(argument) = arguments.get(*position) else {
            return Ok(None);
        };
        let Some(changed) = argument.with_part(rest, part)? else {
            return Ok(None);
        };
        Ok(Some(PlainTerm::Node {
            operation: *operation,
            arguments: with_argument(arguments, *position, changed)?,
        }))
    }

    /// The term with the values put for the variables whose numbers stand beside them. The first
    /// value of a number counts, and a variable without one stays.
    #[cycle(instance)]
    pub fn instance(&self, values: &[(u64, PlainTerm)]) -> Result<PlainTerm, AllocError>
        ensures { IfOk result
            (λ t. term_of_plain t ≡ substituted (binding (pairs_of_values values.now))
            (term_of_plain self.now)) }
    {
        match self {
            PlainTerm::Variable { number, sort } => value_of(*number, *sort, values),
            PlainTerm::Node {
                operation,
                arguments,
            } => Ok(PlainTerm::Node {
                operation: *operation,
                arguments: instances(arguments, values)?,
            }),
        }
    }

    /// The same term.
    #[cycle(copies)]
    pub fn copy(&self) -> Result<PlainTerm, AllocError>
        ensures { IfOk result (λ t. term_of_plain t ≡ term_of_plain self.now) }
    {
        match self {
            PlainTerm::Variable { number, sort } => Ok(PlainTerm::Variable {
                number: *number,
                sort: *sort,
            }),
            PlainTerm::Node {
                operation,
                arguments,
            } => Ok(PlainTerm::Node {
                operation: *operation,
                arguments: copies(arguments)?,
            }),
        }
    }

    // The argument at the position, if there is one.
    fn argument(&self, position: usize) -> Option<&PlainTerm>
        ensures { option_map (λ t. term_of_plain t.now) result
            ≡ subterm_at (position ∷ []) (term_of_plain self.now) }
    {
        match self {
            PlainTerm::Variable { .. } => None,
            PlainTerm::Node { arguments, .. } => arguments.get(position),
        }
    }
}

// Whether the lists are identical.
#[cycle(identity)]
fn all_same(terms: &Vec<PlainTerm>, others: &Vec<PlainTerm>) -> bool
    ensures { IsTrue result ↔ (arguments_of terms.now.items ≡ arguments_of others.now.items) }
{
    if terms.len() != others.len() {
        return false;
    }
    for i in 0..terms.len() {
        if !terms[i].same(&others[i]) {
            return false;
        }
    }
    true
}

// Whether no term of the list has a variable.
#[cycle(ground)]
fn are_ground(terms: &Vec<PlainTerm>) -> bool
    ensures { IsTrue result ↔ AreGround (arguments_of terms.now.items) }
{
    for term in terms {
        if !term.is_ground() {
            return false;
        }
    }
    true
}

// Whether the variable occurs in a term of the list.
#[cycle(occurrence)]
fn any_has_variable(terms: &Vec<PlainTerm>, number: u64, sort: u32) -> bool
    ensures { IsTrue result ↔ OccursAmong number sort (arguments_of terms.now.items) }
{
    for term in terms {
        if term.has_variable(number, sort) {
            return true;
        }
    }
    false
}

// The values put for the variables of each term of the list.
#[cycle(instance)]
fn instances(
    terms: &Vec<PlainTerm>,
    values: &[(u64, PlainTerm)],
) -> Result<Vec<PlainTerm>, AllocError>
    ensures { IfOk result (λ ts. arguments_of ts.items
        ≡ all_substituted (binding (pairs_of_values values.now)) (arguments_of terms.now.items)) }
{
    let mut made = Vec::with_capacity(*terms.allocator(), terms.len())?;
    for term in terms {
        made.push(term.instance(values)?)?;
    }
    Ok(made)
}

// The same terms.
#[cycle(copies)]
fn copies(terms: &Vec<PlainTerm>) -> Result<Vec<PlainTerm>, AllocError>
    ensures { IfOk result (λ ts. arguments_of ts.items ≡ arguments_of terms.now.items) }
{
    let mut made = Vec::with_capacity(*terms.allocator(), terms.len())?;
    for term in terms {
        made.push(term.copy()?)?;
    }
    Ok(made)
}

// The same terms with another one at the position.
fn with_argument(
    terms: &Vec<PlainTerm>,
    position: usize,
    part: PlainTerm,
) -> Result<Vec<PlainTerm>, AllocError>
    requires { position < length terms.now.items }
    ensures { IfOk result (λ ts. arguments_of ts.items
        ≡ argument_put position (term_of_plain part) (arguments_of terms.now.items)) }
{
    let mut made = copies(terms)?;
    made[position] = part;
    Ok(made)
}

// What the values put for the variable with this number and sort.
fn value_of(number: u64, sort: u32, values: &[(u64, PlainTerm)]) -> Result<PlainTerm, AllocError>
    ensures { IfOk result (λ t. term_of_plain t
        ≡ binding (pairs_of_values values.now) number sort) }
{
    for (known, value) in values {
        if *known == number {
            return value.copy();
        }
    }
    Ok(PlainTerm::Variable { number, sort })
}
