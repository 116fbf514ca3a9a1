//! Opening a book.

ghost use Rattle.equation_book.specs.Refusal.{
  AreJoinedBy,
  IsBookFault,
  IsBookFaultOver,
  IsOpenedBy,
  SaysOfData,
};
ghost use Rattle.lotos_base.specs.WrittenView.{listed_operation_of};
ghost use Rattle.path_order.specs.PrecedenceView.{precedence_of};
ghost use Rattle.path_order.specs.RulesView.{precedence_in, rules_in, signature_in};
ghost use Rattle.sort_terms.specs.EquationView.{IsSortedFlat, data_of};
ghost use Rattle.sort_terms.specs.SignatureView.{signature_of};
ghost use Rattle.std.specs.Prelude.{◌≡◌, IfErr, IfOk, map};

use crate::book::Book;
use crate::book_fault::{BookFault, NotOpened};
use critical_pairs::joined::Joined;
use critical_pairs::joining::all_join;
use lotos_base::OrderItem;
use path_order::{Precedence, orient};
use sort_terms::Flat;
use term_store::Store;

impl Book {
    /// The book of the data, whose operations are ordered by the items and whose equations are
    /// oriented by that order. Refusals come in this order: those of the items; then `Unorientable`
    /// exactly at the first equation that cannot be oriented; then `Unjoined` exactly where the
    /// rules are not confluent, for the first critical pair whose sides have different chosen
    /// forms; its terms are of the signature, with its profiles. Every refusal gives the data back.
    pub fn open(flat: Flat, order: &[OrderItem]) -> Result<Book, NotOpened>
        requires { IsSortedFlat flat }
        ensures flat { IfOk result (λ book. book.flat ≡ flat) }
        ensures opened { IfOk result (λ book. IsOpenedBy (map listed_operation_of order.now)
            (data_of flat) (precedence_in book.joined.rules) (rules_in book.joined.rules)) }
        ensures back { IfErr result (λ refused. refused.flat ≡ flat) }
        ensures fault { IfErr result (λ refused. IsBookFault (map listed_operation_of order.now)
            (data_of flat) refused.fault) }
        ensures over { IfErr result (λ refused. IsBookFaultOver (signature_of flat.signature)
            refused.fault) }
    {
        match by_order(&flat, order) {
            Ok((joined, store)) => Ok(Book::of(flat, joined, store)),
            Err(fault) => Err(NotOpened { flat, fault }),
        }
    }
}

// The confluent rules of the data, whose operations are ordered by the items, and a store over
// them.
fn by_order(flat: &Flat, order: &[OrderItem]) -> Result<(Joined, Store), BookFault>
    requires { IsSortedFlat flat.now }
    ensures signature { IfOk result
        (λ made. signature_in made.0.rules ≡ signature_of flat.now.signature) }
    ensures opened { IfOk result (λ made. IsOpenedBy (map listed_operation_of order.now)
        (data_of flat.now) (precedence_in made.0.rules) (rules_in made.0.rules)) }
    ensures stored { IfOk result (λ made. rules_in made.1.rules ≡ rules_in made.0.rules) }
    ensures stored_over { IfOk result
        (λ made. signature_in made.1.rules ≡ signature_in made.0.rules) }
    ensures fault { IfErr result (λ fault. IsBookFault (map listed_operation_of order.now)
        (data_of flat.now) fault) }
    ensures over { IfErr result
        (λ fault. IsBookFaultOver (signature_of flat.now.signature) fault) }
{
    let precedence = Precedence::of(flat, order)?;
    let joined = rules_of_data(flat, precedence)?;
    let store = Store::open(*flat.equations.allocator(), joined.rules())?;
    Ok((joined, store))
}

// The confluent rules of the data by the precedence.
fn rules_of_data(flat: &Flat, precedence: Precedence) -> Result<Joined, BookFault>
    requires { IsSortedFlat flat.now }
    ensures precedence { IfOk result
        (λ joined. precedence_in joined.rules ≡ precedence_of precedence) }
    ensures signature { IfOk result
        (λ joined. signature_in joined.rules ≡ signature_of flat.now.signature) }
    ensures joined { IfOk result (λ joined. AreJoinedBy (precedence_of precedence)
        (data_of flat.now) (rules_in joined.rules)) }
    ensures fault { IfErr result
        (λ fault. SaysOfData (precedence_of precedence) (data_of flat.now) fault) }
    ensures over { IfErr result
        (λ fault. IsBookFaultOver (signature_of flat.now.signature) fault) }
{
    let alloc = *flat.equations.allocator();
    let rules = orient(flat, precedence)?;
    Ok(all_join(alloc, rules)?)
}
