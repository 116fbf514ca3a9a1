//! Which type mentions which.

ghost use Rattle.std.proofs.Props.{props};
ghost use Rattle.std.specs.Prelude.{◌≡◌, ◌<◌, length};
ghost use Rattle.type_definitions.specs.GraphRows.{graph_rows_of};
ghost use Rattle.type_definitions.specs.TypeGraph.{IsWithin, mentioned_by};

/// For each type, by its number, the numbers of the types that it mentions, in text order.
#[derive(Debug, Drop)]
pub struct MentionGraph {
    rows: Vec<Vec<usize>>,
    pub ghost within: { IsWithin (graph_rows_of rows.items) } by { Prim.hlevel props },
}

impl MentionGraph {
    ghost use Rattle.type_definitions.specs.GraphView.{graph_of};

    /// The graph of these rows, one for each type.
    pub fn of(rows: Vec<Vec<usize>>) -> MentionGraph
        requires { IsWithin (graph_rows_of rows.items) }
        ensures { graph_of result ≡ graph_rows_of rows.items }
    {
        MentionGraph { rows }
    }

    /// How many types there are.
    pub fn len(&self) -> usize
        ensures { result ≡ length (graph_of self.now) }
    {
        self.rows.len()
    }

    /// The numbers of the types that the type mentions.
    pub fn mentioned(&self, number: usize) -> &[usize]
        requires { number < length (graph_of self.now) }
        ensures { result.now ≡ mentioned_by (graph_of self.now) number }
    {
        self.rows[number].as_slice()
    }
}
