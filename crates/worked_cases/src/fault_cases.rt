//! Worked cases on faults of derivations. Each function carries what the definitions say of one
//! case as its contract and does nothing.

ghost use Rattle.worked_cases.specs.FaultCases.{OneNodeHasOneFault, EarlierNodesComeFirst, TheFirstPairThatDiffersCounts, LabelsAreLookedAtLast};

/// At one node too few leaves come before a bad leaf, and a bad leaf before the test.
pub fn one_node_has_one_fault()
    ensures { OneNodeHasOneFault }
{}

/// The first faulty node in preorder counts, and nothing below it is looked at.
pub fn earlier_nodes_come_first()
    ensures { EarlierNodesComeFirst }
{}

/// Of matched values the first pair that differs counts.
pub fn the_first_pair_that_differs_counts()
    ensures { TheFirstPairThatDiffersCounts }
{}

/// What a node asks of the labels below is looked at only where no node below has a fault.
pub fn labels_are_looked_at_last()
    ensures { LabelsAreLookedAtLast }
{}
