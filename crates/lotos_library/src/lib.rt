//! The libraries that come with the program: `Boolean` and `NaturalNumber`. They are this
//! project's own texts, and no file is read for these two names.
#![tactic(auto)]

ghost use Rattle.lotos_base.specs.Name.{spelling};
ghost use Rattle.lotos_library.specs.Library.{library_text};
ghost use Rattle.std.specs.Option.{option_map};
ghost use Rattle.std.specs.Prelude.{◌≡◌};

pub mod boolean;
pub mod natural_number;

use crate::boolean::BOOLEAN;
use crate::natural_number::NATURAL_NUMBER;
use lotos_base::Name;

/// The text of the shipped library of this name, or `None` where no library of the name is shipped.
pub fn text_of(name: &Name) -> Option<&'static [u8]>
    ensures { option_map (λ text. text.now) result ≡ library_text (spelling name.now) }
{
    let spelled = name.spelled();
    if spelled.eq_ignore_ascii_case(b"Boolean") {
        Some(BOOLEAN)
    } else if spelled.eq_ignore_ascii_case(b"NaturalNumber") {
        Some(NATURAL_NUMBER)
    } else {
        None
    }
}
