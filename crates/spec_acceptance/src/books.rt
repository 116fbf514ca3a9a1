//! Opening the book of the data by the order.

ghost use Rattle.spec_acceptance.specs.Book.{DoesNotOpen, Opens, opening_told};
ghost use Rattle.lotos_base.specs.WrittenTerm.{ListedOperation};
ghost use Rattle.sort_terms.specs.EquationView.{IsSortedFlat};
ghost use Rattle.spec_acceptance.specs.Doing.{Faulty};
ghost use Rattle.spec_acceptance.specs.Known.{KnowsBook, KnowsOrder, Resolved};
ghost use Rattle.std.specs.Prelude.{List, MatchResult};

use crate::not_accepted::NotAccepted;
use crate::refusals::book_refusal;
use crate::stages::{WithOrder, WithRanks, WithSpec};
use behaviour_tree::Spec;
use lotos_base::Name;
use refusal_lines::{Book, NotOpened, Ranks};

/// The libraries that were read, the specification with its ranks, and the book of the data.
#[derive(Drop)]
pub struct WithBook {
    /// The libraries, in the order of the numbers of their texts.
    pub libraries: Vec<Name>,
    /// The specification.
    pub spec: Spec,
    /// The ranks of its processes.
    pub ranks: Ranks,
    /// The data with their rules.
    pub book: Book,
}

/// The book of the data by the items of the order.
pub fn opened(ordered: WithOrder) -> Result<WithBook, NotAccepted>
    requires { IsSortedFlat ordered.known.known.flat }
    ensures { (whole : Resolved) (items : List ListedOperation) → KnowsOrder whole items ordered
        → MatchResult result
        (λ made. KnowsBook whole items made × Opens items whole.data_ items)
        (Faulty (DoesNotOpen items whole.data_) (opening_told whole.read whole.data_ whole.spec)) }
{
    let WithOrder { known, items } = ordered;
    let WithRanks { known, ranks } = known;
    let WithSpec {
        libraries,
        flat,
        spec,
    } = known;
    match Book::open(flat, items.as_slice()) {
        Ok(book) => Ok(WithBook {
            libraries,
            spec,
            ranks,
            book,
        }),
        Err(NotOpened { flat, fault }) => Err(book_refusal(
            WithSpec {
                libraries,
                flat,
                spec,
            },
            fault,
        )),
    }
}
