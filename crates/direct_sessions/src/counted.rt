//! How often a menu asks for normal forms, where the one before it was kept and where it was not.

ghost use Rattle.demo_walks.specs.HandedOn.{AreGiven, IsLawfulSession, book_canon};
ghost use Rattle.sort_terms.specs.EquationView.{data_of};
ghost use Rattle.sort_terms.specs.SignatureView.{signature_of};
ghost use Rattle.spec_acceptance.specs.Acceptance.{Acceptance};
ghost use Rattle.spec_acceptance.specs.AcceptedView.{HoldsAccepted};
ghost use Rattle.spec_acceptance.specs.HandedOn.{book_is_canon};

use crate::accepted::{accept, opened};
use crate::sessions::nought;
use behaviour_tree::{Spec, State};
use demo_walks::{Book, MenuMaker, Ranks, Session, demo_text};
use lotos_base::NoMemory;
use menu_parts::{Menu, PartMenus};
use sort_terms::{Deciding, Sorted};
use spec_acceptance::Accepted;
use std::alloc::Global;
use std::test::Fail;

/// A book that counts how often it is asked for a normal form.
#[derive(Drop)]
struct Counting {
    book: Book,
    asked: u64,
}

impl Deciding for Counting {
    ghost known_data = { λ it. data_of it.book.flat };

    ghost canon = { λ it t. book_canon it.book t };

    ghost is_canon = { λ it. book_is_canon it.book };

    fn normal(&mut self, term: &Sorted) -> Result<Sorted, NoMemory> {
        self.asked = self.asked.wrapping_add(1);
        self.book.normal(term)
    }
}

/// A maker whose every menu is the first one of a new maker that keeps menus.
#[derive(Drop)]
struct Forgetting;

impl MenuMaker for Forgetting {
    ghost suits = { λ _ _ _ _. Unit {0} };

    fn make<D: Deciding>(
        &mut self,
        alloc: Global,
        spec: &Spec,
        ranks: &Ranks,
        state: &State,
        decider: &mut D,
    ) -> Result<Menu, NoMemory> {
        let mut maker = PartMenus::open(spec)?;
        maker.make(alloc, spec, ranks, state, decider)
    }
}

// How often the step by the second entry asks, with the menu behind it; none where it is refused.
fn asked_by<M: MenuMaker>(
    session: &mut Session<M>,
    values: Vec<Sorted>,
    counting: &mut Counting,
) -> Option<u64>
    requires lawful { IsLawfulSession M.suits (data_of counting.old.book.flat)
        (book_canon counting.old.book) session.old }
    requires given { AreGiven (signature_of counting.old.book.flat.signature) values.items }
{
    let before = counting.asked;
    match session.step(2, values, counting) {
        Ok(_) => Some(counting.asked.wrapping_sub(before)),
        Err(_) => None,
    }
}

// The same in the session that begins with what was accepted.
fn asked_at_first<M: MenuMaker>(
    alloc: Global,
    accepted: Accepted,
    maker: M,
    values: Vec<Sorted>,
) -> Result<Option<u64>, NoMemory>
    requires known { (acceptance : Acceptance) × HoldsAccepted acceptance accepted }
    requires suited { M.suits maker accepted.spec (data_of accepted.book.flat)
        (book_canon accepted.book) }
    requires given { AreGiven (signature_of accepted.book.flat.signature) values.items }
{
    let (mut session, book) = opened(alloc, accepted, maker)?;
    let mut counting = Counting { book, asked: 0 };
    Ok(asked_by(&mut session, values, &mut counting))
}

// The same in a session of the text whose menus are kept.
fn with_kept_menus(alloc: Global, text: &str) -> Result<Option<u64>, Fail> {
    let accepted = accept(alloc, text)?;
    let values = nought(alloc, &accepted.book.flat().signature)?;
    let maker = PartMenus::open(&accepted.spec)?;
    Ok(asked_at_first(alloc, accepted, maker, values)?)
}

// The same in one whose menus are each made by a new maker.
fn with_new_makers(alloc: Global, text: &str) -> Result<Option<u64>, Fail> {
    let accepted = accept(alloc, text)?;
    let values = nought(alloc, &accepted.book.flat().signature)?;
    Ok(asked_at_first(alloc, accepted, Forgetting, values)?)
}

#[test]
fn kept_menus_ask_less(rt: HostRuntime) -> Result<(), Fail> {
    let alloc = rt.alloc();
    let text = String::from_utf8(demo_text(alloc, 8)?)?;
    let kept = with_kept_menus(alloc, text.as_str())?.unwrap_or(u64::MAX);
    let anew = with_new_makers(alloc, text.as_str())?.unwrap_or(0);
    assert!(rt; kept < anew);
    Ok(())
}
