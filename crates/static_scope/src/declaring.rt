//! The processes of a `where`, made visible.

ghost use Rattle.static_scope.specs.Sizes.{BeginsAt, sizes_of_all};
ghost use Rattle.static_scope.specs.SizesView.{written_inners};
ghost use Rattle.static_scope.specs.Points.{with_processes};
ghost use Rattle.static_scope.specs.PointsView.{point_in};
ghost use Rattle.scope_parts.specs.Definitions.{callables};
ghost use Rattle.std.specs.Prelude.{◌≡◌, OnOk};

use crate::own_processes::make_visible;
use behaviour_scopes::Resolver;
use lotos_base::NoMemory;
use std::alloc::Global;
use syntax_trees::InnerText;

/// Makes the processes of a `where` visible, numbered from the next number on. Of two of one name
/// the first one is called.
pub fn declare(
    alloc: Global,
    resolver: &mut Resolver,
    sizes: &Vec<usize>,
    inner: &Vec<InnerText>,
) -> Result<(), NoMemory>
    requires { BeginsAt (sizes_of_all (written_inners inner.now.items))
        (point_in resolver.old).process sizes.now.items }
    ensures { OnOk result (point_in resolver.new ≡ with_processes (callables
        (point_in resolver.old).signature (point_in resolver.old).process
        (written_inners inner.now.items)) (point_in resolver.old)) }
{
    let first = resolver.next_process as usize;
    let terms = &resolver.terms;
    make_visible(
        alloc,
        &terms.reader,
        sizes,
        first,
        inner,
        &mut resolver.processes,
    )?;
    Ok(())
}
