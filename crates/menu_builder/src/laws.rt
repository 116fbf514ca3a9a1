//! The laws. Each function carries its law as its contract and does nothing.

ghost use Rattle.menu_builder.specs.ClosedParts.{ClosedPartsAreBelow};
ghost use Rattle.menu_builder.specs.NodeNumbers.{NodesStandBelow};
ghost use Rattle.menu_builder.specs.OpenMenus.{OpenListsMakeMenus};

/// The drafts of a closed behaviour, numbered from 0 and solved one by one, are its exact menu.
pub fn open_lists_make_menus()
    ensures { OpenListsMakeMenus }
{}

/// A closed part of a state is well formed in the scope of the variables of its environment.
pub fn closed_parts_are_below()
    ensures { ClosedPartsAreBelow }
{}

/// What a node stands for binds no number from the one on that is above those of the node.
pub fn nodes_stand_below()
    ensures { NodesStandBelow }
{}
