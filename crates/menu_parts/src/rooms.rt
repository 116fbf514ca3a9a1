//! How far a state is looked at part by part.

ghost use Rattle.std.specs.Prelude.{◌≡◌, ◌⊎◌, ◌+◌, ◌-◌, IfSome, IfNone};

// The menu of each part above such a part is kept, and is as long as all that stands below. What
// stands deeper is one component.
const LISTS: u32 = 128;

// A level of parts side by side takes up to 1,800 bytes of the stack as one of a menu does, so that
// 8 MiB hold these.
const LEVELS: u32 = 4_000;

/// How many menus may still be made one from another, and how many levels of parts there may be
/// below. Parts side by side are levels, and have no menus of their own.
#[derive(Clone, Copy)]
pub struct Room {
    lists: u32,
    levels: u32,
}

impl Room {
    /// All that there is: 128 menus, and 4,000 levels.
    pub fn all() -> Room
        ensures lists { result.lists ≡ 128 }
        ensures levels { result.levels ≡ 4000 }
    {
        Room {
            lists: LISTS,
            levels: LEVELS,
        }
    }

    /// What is left below a menu, if anything.
    pub fn below_menu(self) -> Option<Room>
        ensures levels { IfSome result (λ below. self.levels ≡ below.levels + 1) }
        ensures lists { IfSome result (λ below. self.lists ≡ below.lists + 1) }
        ensures none { IfNone result ((self.levels ≡ 0) ⊎ (self.lists ≡ 0)) }
    {
        let levels = self.levels.checked_sub(1)?;
        let lists = self.lists.checked_sub(1)?;
        Some(Room { lists, levels })
    }

    /// What is left below a level of parts side by side, if anything.
    pub fn below_level(self) -> Option<Room>
        ensures levels { IfSome result (λ below. self.levels ≡ below.levels + 1) }
        ensures lists { IfSome result (λ below. self.lists ≡ below.lists) }
        ensures none { IfNone result (self.levels ≡ 0) }
    {
        let levels = self.levels.checked_sub(1)?;
        Some(Room {
            lists: self.lists,
            levels,
        })
    }

    /// How many levels stand above.
    pub fn used(self) -> u32
        ensures { result ≡ 4000 - self.levels }
    {
        LEVELS.saturating_sub(self.levels)
    }
}
