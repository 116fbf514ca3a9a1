//! Laws of exact menus and of menus that are kept for parts. Each function carries a law as its
//! contract and does nothing.

ghost use Rattle.shared_entries.specs.Instances.{
  EmptyMenusMeanNoTransition,
  InstancesAreTransitions,
  PlainEntriesAreOneTransition,
};
ghost use Rattle.shared_entries.specs.KeptTreeLaws.{JoinsAreInOrder, KeptTreesServe};
ghost use Rattle.shared_entries.specs.PartMenuLaws.{PartsMakeTheMenu};
ghost use Rattle.shared_entries.specs.MenuExamples.{WorkedMenus};

use behaviour_semantics::order::before_is_a_strict_order;
use behaviour_semantics::transition::transitions_are_derived;

/// The instances of the entries of an exact menu are transitions by the rules of the standard, and
/// each transition is an instance of an entry, with an equal label (ISO 8807:1989, dynamic
/// semantics of behaviour expressions).
pub fn instances_are_transitions()
    ensures { InstancesAreTransitions }
{
    transitions_are_derived();
}

/// An entry without variables and without conditions has exactly one instance: one transition has
/// its label, and each derivation of its shape has equal leaves and an equal label.
pub fn plain_entries_are_one_transition()
    ensures { PlainEntriesAreOneTransition }
{
    transitions_are_derived();
    before_is_a_strict_order();
}

/// Where the exact menu is empty, no transition exists.
pub fn empty_menus_mean_no_transition()
    ensures { EmptyMenusMeanNoTransition }
{
    transitions_are_derived();
}

/// The exact menu of a behaviour is made from the exact menus of its parts, form by form, over any
/// processes.
pub fn parts_make_the_menu()
    ensures { PartsMakeTheMenu }
{}

/// A tree of menus that are kept for parts gives the exact menu of the behaviour that it is kept
/// for: where a list is made from those of the parts, and where a list is taken over that was made
/// before for the same behaviour.
pub fn kept_trees_serve()
    ensures { KeptTreesServe }
{}

/// The joins of the entries of two exact menus are drafts in order.
pub fn joins_are_in_order()
    ensures { JoinsAreInOrder }
{}

/// What the definitions make of small menus, worked out by hand.
pub fn worked_menus()
    ensures { WorkedMenus }
{}
