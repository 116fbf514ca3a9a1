//! Why steps and traces are refused.

ghost use Rattle.session_log.specs.RefusalView.{replay_fault_at};
ghost use Rattle.std.specs.Prelude.{◌≡◌};

use lotos_base::NoMemory;
use session_lines::{ReadFault, Refusal};
use sort_terms::Sorted;

/// Why a step is refused.
#[derive(Debug, Drop)]
pub enum StepRefusal {
    /// The menu has no entry with this number. Entries are numbered from 1.
    NoEntry {
        /// The number.
        number: u64,
        /// How many entries there are.
        length: usize,
    },
    /// More or fewer values are given than the entry has variables.
    ValueCount {
        /// How many variables there are.
        wanted: usize,
        /// How many values are given.
        given: usize,
    },
    /// A value has another sort than its variable.
    ValueSort {
        /// The number of the first such variable, from 0.
        variable: usize,
    },
    /// A condition of the entry does not hold: the normal forms of the two sides of the first one.
    Unmet {
        /// The left side.
        left: Sorted,
        /// The right side.
        right: Sorted,
    },
    /// There is no memory for the step.
    NoMemory,
}

impl From<NoMemory> for StepRefusal {
    ghost use Rattle.session_log.specs.declared.refusals.StepRefusal.TheVariants.{
      NoMemory as out_of_memory,
    };

    ghost from_gives = { λ _ refusal. refusal ≡ out_of_memory };

    fn from(_fault: NoMemory) -> StepRefusal {
        StepRefusal::NoMemory
    }
}

/// Why a trace is not replayed. Lines are numbered from 1.
#[derive(Debug, Drop)]
pub enum ReplayFault {
    /// The first line is neither `lotos-trace 1` nor `lotos-trace 2 ` with a name behind it; or a
    /// later one has not the form of a step, its terms are not read, or a value has not one reading
    /// at the sort of its variable; or the line behind a step does not begin with `at `, or is
    /// missing, and then has the number behind the last one.
    BadLine {
        /// The number of the line.
        line: u32,
    },
    /// The first line names another specification, letter case aside.
    OtherSpecification {
        /// The name in the line.
        kept: Vec<u8>,
    },
    /// The label of a line is not the text of the label that its step has.
    LabelDiffers {
        /// The number of the line.
        line: u32,
        /// The label of the line.
        kept: Vec<u8>,
        /// The text of the label of the step.
        found: Vec<u8>,
    },
    /// The state of a line is not the text of the state that was reached.
    StateDiffers {
        /// The number of the line.
        line: u32,
        /// The state of the line.
        kept: Vec<u8>,
        /// The text of the state that was reached.
        found: Vec<u8>,
    },
    /// The step of a line is refused.
    Step {
        /// The number of the line.
        line: u32,
        /// Why it is refused.
        why: StepRefusal,
    },
    /// There is no memory for the replay.
    NoMemory,
}

impl From<NoMemory> for ReplayFault {
    ghost use Rattle.session_log.specs.declared.refusals.ReplayFault.TheVariants.{
      NoMemory as out_of_memory,
    };

    ghost from_gives = { λ _ fault. fault ≡ out_of_memory };

    fn from(_fault: NoMemory) -> ReplayFault {
        ReplayFault::NoMemory
    }
}

/// Why the text of a trace is not given.
#[derive(Debug, Drop)]
pub enum TraceFault {
    /// It has more bytes than it may have.
    TooLong,
    /// There is no memory for it.
    NoMemory,
}

impl From<NoMemory> for TraceFault {
    ghost use Rattle.session_log.specs.declared.refusals.TraceFault.TheVariants.{
      NoMemory as out_of_memory,
    };

    ghost from_gives = { λ _ fault. fault ≡ out_of_memory };

    fn from(_fault: NoMemory) -> TraceFault {
        TraceFault::NoMemory
    }
}

/// Why a line of a trace is refused, without its number.
#[derive(Debug, Drop)]
pub enum LineFault {
    /// The line has not its form, or its terms are not read.
    BadLine,
    /// Its label is not that of its step.
    LabelDiffers {
        /// The label of the line.
        kept: Vec<u8>,
        /// The text of the label of the step.
        found: Vec<u8>,
    },
    /// Its state is not the one that was reached.
    StateDiffers {
        /// The state of the line.
        kept: Vec<u8>,
        /// The text of the state that was reached.
        found: Vec<u8>,
    },
    /// Its step is refused.
    Step(StepRefusal),
    /// There is no memory for it.
    NoMemory,
}

impl From<NoMemory> for LineFault {
    ghost use Rattle.session_log.specs.declared.refusals.LineFault.TheVariants.{
      NoMemory as out_of_memory,
    };

    ghost from_gives = { λ _ fault. fault ≡ out_of_memory };

    fn from(_fault: NoMemory) -> LineFault {
        LineFault::NoMemory
    }
}

impl From<StepRefusal> for LineFault {
    ghost use Rattle.session_log.specs.RefusalView.{line_fault_of};

    ghost from_gives = { λ refusal fault. fault ≡ line_fault_of refusal };

    fn from(refusal: StepRefusal) -> LineFault {
        match refusal {
            StepRefusal::NoMemory => LineFault::NoMemory,
            other => LineFault::Step(other),
        }
    }
}

impl From<ReadFault> for LineFault {
    ghost use Rattle.session_log.specs.RefusalView.{line_fault_of_text};

    ghost from_gives = { λ fault of_line. of_line ≡ line_fault_of_text fault };

    fn from(fault: ReadFault) -> LineFault {
        match fault {
            ReadFault::TooLong => LineFault::BadLine,
            ReadFault::BadByte { .. } => LineFault::BadLine,
            ReadFault::OpenComment { .. } => LineFault::BadLine,
            ReadFault::Syntax { .. } => LineFault::BadLine,
            ReadFault::TooDeep { .. } => LineFault::BadLine,
            ReadFault::NoMemory => LineFault::NoMemory,
        }
    }
}

impl From<Refusal> for LineFault {
    ghost use Rattle.session_log.specs.RefusalView.{line_fault_of_values};

    ghost from_gives = { λ refusal fault. fault ≡ line_fault_of_values refusal };

    fn from(refusal: Refusal) -> LineFault {
        match refusal {
            Refusal::BadCommand => LineFault::BadLine,
            Refusal::BadTerm { .. } => LineFault::BadLine,
            Refusal::NoMemory => LineFault::NoMemory,
        }
    }
}

impl LineFault {
    /// The fault of the line with this number.
    pub fn at(self, line: u32) -> ReplayFault
        ensures { result ≡ replay_fault_at self line }
    {
        match self {
            LineFault::BadLine => ReplayFault::BadLine { line },
            LineFault::LabelDiffers { kept, found } => {
                ReplayFault::LabelDiffers { line, kept, found }
            }
            LineFault::StateDiffers { kept, found } => {
                ReplayFault::StateDiffers { line, kept, found }
            }
            LineFault::Step(why) => ReplayFault::Step { line, why },
            LineFault::NoMemory => ReplayFault::NoMemory,
        }
    }
}
