//! Ranks of processes: numbers that fall along every unguarded call, so that recursion is guarded.

ghost use Rattle.process_checks.specs.Ranks.{rank_in};
ghost use Rattle.std.specs.Prelude.{◌≡◌, ◌<◌, length};

use lotos_base::{NoMemory, Place};

/// A rank for each process.
#[derive(Debug, Drop)]
pub struct Ranks {
    of_process: Vec<u32>,
}

/// Why a specification has no ranks.
#[derive(Debug, Drop)]
pub enum RankFault {
    /// Unguarded calls make a cycle.
    Unguarded {
        /// The first call in the text that lies on a cycle.
        place: Place,
        /// The process whose body has this call.
        process: u32,
        /// The processes of a cycle, beginning with this process and this call: a shortest one, and
        /// among the shortest the one whose calls come earliest.
        cycle: Vec<u32>,
    },
    /// Memory was wanted and not there.
    NoMemory,
}

impl From<NoMemory> for RankFault {
    ghost use Rattle.process_checks.specs.declared.rank_table.RankFault.TheVariants.{
      NoMemory as out_of_memory,
    };

    ghost from_gives = { λ _ fault. fault ≡ out_of_memory };

    fn from(_fault: NoMemory) -> RankFault {
        RankFault::NoMemory
    }
}

impl Ranks {
    /// These ranks, by the number of the process.
    pub(crate) fn of(of_process: Vec<u32>) -> Ranks
        ensures { result.of_process ≡ of_process }
    {
        Ranks { of_process }
    }

    /// The rank of the process.
    pub fn rank(&self, process: u32) -> u32
        requires { process < length self.now.of_process.items }
        ensures { result ≡ rank_in self.now process }
    {
        self.of_process[process as usize]
    }
}
