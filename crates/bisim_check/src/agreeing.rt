//! Lists compared member by member.

ghost use Rattle.bisim_check.specs.OneByOne.{OneByOne};
ghost use Rattle.std.specs.Prelude.{◌↔◌, IsTrue};

/// What agrees with others of its kind or not.
pub trait Agreeing {
    ghost agree: { Self → Self → Type 0 };

    /// Whether the two agree.
    fn agrees(&self, other: &Self) -> bool
        ensures { IsTrue result ↔ agree self.now other.now };
}

/// Whether the lists have as many members, which agree one by one.
pub fn all_agree<T: Agreeing>(members: &[T], others: &[T]) -> bool
    ensures { IsTrue result ↔ OneByOne T.agree members.now others.now }
{
    if members.len() != others.len() {
        return false;
    }
    for i in 0..members.len() {
        if !members[i].agrees(&others[i]) {
            return false;
        }
    }
    true
}
