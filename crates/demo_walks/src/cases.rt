//! Worked cases. The function carries what the definitions say of them as its contract and
//! does nothing.

ghost use Rattle.demo_walks.specs.WalkCases.{SummariesHaveTexts, WalksHaveSteps};

/// Small walks, and their summaries.
pub fn worked_cases_hold()
    ensures walks_have_steps { WalksHaveSteps }
    ensures summaries_have_texts { SummariesHaveTexts }
{}
