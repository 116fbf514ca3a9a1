//! Worked cases. Each function carries what the definitions say of one case as its contract and
//! does nothing.

ghost use Rattle.worked_cases.specs.MenuCases.{EqualLabelsStayInTheMenu};
ghost use Rattle.worked_cases.specs.SampleLaws.{SampleFormsAreACanon};
ghost use Rattle.worked_cases.specs.OrderCases.{ShapesStandInOrder, CallsAreGuardedByActions, EdgesNeedNotMakeACycle};
ghost use Rattle.worked_cases.specs.OfferCases.{EqualLabelsAreTwoEntries, APredicateIsKept, AMatchGivesTheValue, APredicateOutlivesAMatch, AnEmptyChoiceHasNoInstance, AnUnsolvableConditionIsKept, TheEarlierVariableStays, ValuesAreBound};
ghost use Rattle.worked_cases.specs.FormCases.{ACallKeepsItsGatesApart, ATargetStaysRelabelled, BothSidesEndTogether, ADisablingEndsWithItsLeftSide, AHiddenEventKeepsItsVariable, SidesMeetAtTheirGates, GatesAreListed};

/// Equal labels of two shapes are two entries.
pub fn equal_labels_are_two_entries()
    ensures { EqualLabelsAreTwoEntries }
{}

/// A selection predicate is kept as a condition.
pub fn a_predicate_is_kept()
    ensures { APredicateIsKept }
{}

/// A match gives the variable its value.
pub fn a_match_gives_the_value()
    ensures { AMatchGivesTheValue }
{}

/// A selection predicate is asked after a match has given its variable a value.
pub fn a_predicate_outlives_a_match()
    ensures { APredicateOutlivesAMatch }
{}

/// A value choice over an empty sort has an entry without instances.
pub fn an_empty_choice_has_no_instance()
    ensures { AnEmptyChoiceHasNoInstance }
{}

/// An entry with a condition that nobody meets is kept.
pub fn an_unsolvable_condition_is_kept()
    ensures { AnUnsolvableConditionIsKept }
{}

/// One actual gate for two formal gates does not merge them.
pub fn a_call_keeps_its_gates_apart()
    ensures { ACallKeepsItsGatesApart }
{}

/// Both sides of a parallel end together.
pub fn both_sides_end_together()
    ensures { BothSidesEndTogether }
{}

/// A disabling is gone after its left side ended.
pub fn a_disabling_ends_with_its_left_side()
    ensures { ADisablingEndsWithItsLeftSide }
{}

/// A hidden event keeps its variable.
pub fn a_hidden_event_keeps_its_variable()
    ensures { AHiddenEventKeepsItsVariable }
{}

/// A gate `par` and a gate choice go by the listed gates.
pub fn gates_are_listed()
    ensures { GatesAreListed }
{}

/// Values are bound by `let`, by a guard and by `?x`, each in its scope.
pub fn values_are_bound()
    ensures { ValuesAreBound }
{}

/// The sides of a parallel meet at the gates of its set.
pub fn sides_meet_at_their_gates()
    ensures { SidesMeetAtTheirGates }
{}

/// The target of a move under a relabelling stays relabelled.
pub fn a_target_stays_relabelled()
    ensures { ATargetStaysRelabelled }
{}

/// Left before right before both, gates by position.
pub fn shapes_stand_in_order()
    ensures { ShapesStandInOrder }
{}

/// Of two bare variables the earlier stays.
pub fn the_earlier_variable_stays()
    ensures { TheEarlierVariableStays }
{}

/// Calls below an action and on the right of `>>` are guarded.
pub fn calls_are_guarded_by_actions()
    ensures { CallsAreGuardedByActions }
{}

/// Processes with an unguarded call and without a cycle are guarded.
pub fn edges_need_not_make_a_cycle()
    ensures { EdgesNeedNotMakeACycle }
{}

/// The exact menu keeps two entries with one label, and what the laws ask for can be met.
pub fn equal_labels_stay_in_the_menu()
    ensures { EqualLabelsStayInTheMenu }
{}

/// The sample data are well formed, and their canonical forms are a canon.
pub fn sample_forms_are_a_canon()
    ensures { SampleFormsAreACanon }
{}
