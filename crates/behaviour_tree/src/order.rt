//! The order of shapes.

ghost use Rattle.behaviour_semantics.specs.Shape.{Before};
ghost use Rattle.behaviour_tree.specs.MoveView.{shape_of};
ghost use Rattle.behaviour_tree.specs.Standing.{TellsStanding};
ghost use Rattle.std.specs.Prelude.{◌≡◌, ◌↔◌, IsTrue};

use crate::moves::Shape;

/// How one shape stands to another.
#[derive(Clone, Copy, Debug, PartialEq, Eq)]
pub enum Standing {
    /// It comes before the other.
    Before,
    /// They are the same, where a left side of `>>` that ended and one that goes on count as one.
    Agreeing,
    /// Neither.
    Otherwise,
}

impl Shape {
    /// Whether this shape comes before the other: at the first node in preorder where they differ,
    /// left stands before right, right before both, or the one gate before the other by position.
    /// A left side of `>>` that ended and one that goes on count as one.
    #[tactic(auto, using(crate::proofs::StandingLemmas::told_before, crate::proofs::StandingLemmas::told_agreeing, crate::proofs::StandingLemmas::told_otherwise))]
    pub fn before(&self, other: &Shape) -> bool
        ensures { IsTrue result ↔ Before (shape_of self.now) (shape_of other.now) }
    {
        match self.standing(other) {
            Standing::Before => true,
            Standing::Agreeing => false,
            Standing::Otherwise => false,
        }
    }

    /// How this shape stands to the other.
    #[tactic(auto, using(crate::proofs::StandingLemmas::tells_act, crate::proofs::StandingLemmas::tells_quit, crate::proofs::StandingLemmas::tells_inner, crate::proofs::StandingLemmas::tells_left_right, crate::proofs::StandingLemmas::tells_left_both, crate::proofs::StandingLemmas::tells_right_both, crate::proofs::StandingLemmas::tells_first, crate::proofs::StandingLemmas::tells_neither, crate::proofs::StandingLemmas::tells_second, crate::proofs::StandingLemmas::tells_earlier, crate::proofs::StandingLemmas::tells_later, crate::proofs::StandingLemmas::tells_gate, crate::proofs::StandingLemmas::tells_guarded, crate::proofs::StandingLemmas::tells_left, crate::proofs::StandingLemmas::tells_right, crate::proofs::StandingLemmas::tells_hidden, crate::proofs::StandingLemmas::tells_enabled, crate::proofs::StandingLemmas::tells_passed, crate::proofs::StandingLemmas::tells_enabled_passed, crate::proofs::StandingLemmas::tells_passed_enabled, crate::proofs::StandingLemmas::tells_let, crate::proofs::StandingLemmas::tells_value, crate::proofs::StandingLemmas::tells_called, crate::proofs::StandingLemmas::tells_relabelled))]
    pub fn standing(&self, other: &Shape) -> Standing
        ensures { TellsStanding result (shape_of self.now) (shape_of other.now) }
    {
        match (self, other) {
            (Shape::Act, Shape::Act) | (Shape::Quit, Shape::Quit) => Standing::Agreeing,
            (Shape::Inner, Shape::Inner) => Standing::Agreeing,
            (Shape::Left(_), Shape::Right(_)) => Standing::Before,
            (Shape::Left(_), Shape::Both(_, _)) => Standing::Before,
            (Shape::Right(_), Shape::Both(_, _)) => Standing::Before,
            (Shape::Both(left, right), Shape::Both(first, second)) => {
                match left.standing(first) {
                    Standing::Agreeing => right.standing(second),
                    Standing::Before => Standing::Before,
                    Standing::Otherwise => Standing::Otherwise,
                }
            }
            (Shape::Gate(position, part), Shape::Gate(other_position, other_part)) => {
                if position < other_position {
                    return Standing::Before;
                }
                if position > other_position {
                    return Standing::Otherwise;
                }
                part.standing(other_part)
            }
            (Shape::Guarded(part), Shape::Guarded(other_part)) => part.standing(other_part),
            (Shape::Left(part), Shape::Left(other_part)) => part.standing(other_part),
            (Shape::Right(part), Shape::Right(other_part)) => part.standing(other_part),
            (Shape::Hidden(part), Shape::Hidden(other_part)) => part.standing(other_part),
            (Shape::Enabled(part), Shape::Enabled(other_part)) => part.standing(other_part),
            (Shape::Enabled(part), Shape::Passed(other_part)) => part.standing(other_part),
            (Shape::Passed(part), Shape::Enabled(other_part)) => part.standing(other_part),
            (Shape::Passed(part), Shape::Passed(other_part)) => part.standing(other_part),
            (Shape::Bound(part), Shape::Bound(other_part)) => part.standing(other_part),
            (Shape::Value(part), Shape::Value(other_part)) => part.standing(other_part),
            (Shape::Called(part), Shape::Called(other_part)) => part.standing(other_part),
            (Shape::Relabelled(part), Shape::Relabelled(other_part)) => part.standing(other_part),
            _ => Standing::Otherwise,
        }
    }
}
