//! From which side the arguments of an operation are compared.

ghost use Rattle.lotos_base.specs.Name.{spelling};
ghost use Rattle.path_order.specs.PrecedenceView.{status_of};
ghost use Rattle.path_order.specs.Statuses.{status_named};
ghost use Rattle.std.specs.Prelude.{◌≡◌, option_map};

use lotos_base::Name;

/// From which side the arguments of an operation are compared: the first place where they differ,
/// counted from there, decides (Baader and Nipkow, 5.4).
#[derive(Clone, Copy, Debug, PartialEq, Eq)]
pub enum Status {
    /// From the left.
    Left,
    /// From the right.
    Right,
}

impl Status {
    /// The status with this name, `left` or `right` in any letter case, or `None` for another name.
    pub fn named(name: &Name) -> Option<Status>
        ensures { option_map status_of result ≡ status_named (spelling name.now) }
    {
        let spelled = name.spelled();
        if spelled.eq_ignore_ascii_case(b"left") {
            Some(Status::Left)
        } else if spelled.eq_ignore_ascii_case(b"right") {
            Some(Status::Right)
        } else {
            None
        }
    }
}
