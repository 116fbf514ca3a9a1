//! What is seen on a walk.

ghost use Rattle.history_lines.specs.HandedOn.{label_of};
ghost use Rattle.lotos_base.specs.Equation.{Data};
ghost use Rattle.lotos_base.specs.Term.{Term};
ghost use Rattle.std.specs.Prelude.{◌≡◌, ◌+◌, ◌*◌, ◌≤◌, [], Some, length, option_map};

use history_lines::{Label, MenuMaker, Session};

/// What is seen on a walk through a session.
#[derive(Debug, Drop)]
pub struct Tally {
    /// How many steps were taken.
    pub steps: usize,
    /// How many entries the menus had: at the start, and behind each step.
    pub entries: u128,
    /// The label of the last step.
    pub last: Option<Label>,
}

impl Tally {
    ghost use Rattle.demo_walks.specs.WalkView.{IsOnWalk, most_entries, walk_reached};
    ghost use Rattle.history_lines.specs.HandedOn.{IsLawfulSession};

    /// What is seen of a session that has taken no step: its menu.
    pub fn begin<M: MenuMaker>(session: &Session<M>) -> Tally
        requires { session.now.course.history.items ≡ [] }
        ensures { (data_ : Data) (canon : Term → Term)
            → IsLawfulSession M.suits data_ canon session.now
            → IsOnWalk M.suits data_ canon session.now result }
    {
        let entries = session.menu().len() as u128;
        Tally {
            steps: 0,
            entries,
            last: None,
        }
    }

    /// Notes a step that the session has just taken, with its label.
    pub fn note<M: MenuMaker>(&mut self, session: &Session<M>, label: Label)
        requires { self.old.entries ≤ length (walk_reached session.now).steps * most_entries }
        ensures steps { self.new.steps ≡ length (walk_reached session.now).steps }
        ensures entries { self.new.entries
            ≡ self.old.entries + length (walk_reached session.now).situation.menu }
        ensures few { length (walk_reached session.now).situation.menu ≤ most_entries }
        ensures last { option_map label_of self.new.last ≡ Some (label_of label) }
    {
        self.steps = session.length();
        self.entries += session.menu().len() as u128;
        self.last = Some(label);
    }
}
