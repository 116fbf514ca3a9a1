//! The formal gates and the functionality of a heading.

ghost use Rattle.behaviour_tree.specs.DefinitionView.{functionality_of as resolved_functionality};
ghost use Rattle.sort_terms.specs.ReaderView.{signature_read};
ghost use Rattle.scope_parts.specs.Behaviours.{numbers_from};
ghost use Rattle.scope_parts.specs.Definitions.{formal_gates as formal_gates_of};
ghost use Rattle.scope_parts.specs.FaultView.{Answers};
ghost use Rattle.scope_parts.specs.GatesDeclared.{declared};
ghost use Rattle.scope_parts.specs.GatesView.{gates_in};
ghost use Rattle.scope_parts.specs.Numbering.{spelled_names};
ghost use Rattle.scope_parts.specs.Resolution.{Is, resolved};
ghost use Rattle.scope_parts.specs.Sorts.{functionality_at};
ghost use Rattle.std.specs.Prelude.{◌≡◌, IfOk, OnOk, length};
ghost use Rattle.syntax_trees.specs.TreeViews.{written_functionality_of, placed_names_of};

use lotos_base::NoMemory;
use scope_parts::ScopeFault;
use scope_parts::doubles::first_double;
use scope_parts::fault_order::beside;
use scope_parts::gate_table::GateTable;
use scope_parts::sorts::sorts_at;
use sort_terms::Reader;
use std::alloc::Global;
use syntax_trees::Named;

/// Declares gates, one after the other.
pub fn declare_all(
    alloc: Global,
    table: &mut GateTable,
    texts: &Vec<Named>,
) -> Result<Vec<u32>, NoMemory>
    ensures numbers { IfOk result (λ made. made.items ≡ numbers_from
        (length (gates_in table.old).names) (placed_names_of texts.now.items)) }
    ensures declared { OnOk result (gates_in table.new
        ≡ declared (spelled_names (placed_names_of texts.now.items)) (gates_in table.old)) }
{
    let mut numbers = Vec::with_capacity(alloc, texts.len())?;
    for (_, name) in texts {
        let number = table.declare(alloc, name)?;
        numbers.push(number)?;
    }
    Ok(numbers)
}

// The same, where want of memory is a fault.
fn gates_declared(
    alloc: Global,
    table: &mut GateTable,
    texts: &Vec<Named>,
) -> Result<Vec<u32>, ScopeFault>
    ensures read { Answers (λ made. made.items) result (Is (resolved (numbers_from
        (length (gates_in table.old).names) (placed_names_of texts.now.items)))) }
    ensures declared { OnOk result (gates_in table.new
        ≡ declared (spelled_names (placed_names_of texts.now.items)) (gates_in table.old)) }
{
    let numbers = declare_all(alloc, table, texts)?;
    Ok(numbers)
}

/// Declares formal gates. No name may stand twice.
pub fn formal_gates(
    alloc: Global,
    table: &mut GateTable,
    texts: &Vec<Named>,
) -> Result<Vec<u32>, ScopeFault>
    ensures read { Answers (λ made. made.items) result (Is (formal_gates_of
        (length (gates_in table.old).names) (placed_names_of texts.now.items))) }
    ensures declared { OnOk result (gates_in table.new
        ≡ declared (spelled_names (placed_names_of texts.now.items)) (gates_in table.old)) }
{
    let double = first_double(alloc, texts)?;
    beside(double, gates_declared(alloc, table, texts))
}

/// The functionality of a heading.
pub fn functionality(
    alloc: Global,
    reader: &Reader,
    text: &Option<Vec<Named>>,
) -> Result<Option<Vec<u32>>, ScopeFault>
    ensures { Answers resolved_functionality result (Is (functionality_at
        (signature_read reader.now) (written_functionality_of text.now))) }
{
    match text {
        None => Ok(None),
        Some(names) => {
            let sorts = sorts_at(alloc, reader, names)?;
            Ok(Some(sorts))
        }
    }
}
