//! How long a text may be.

ghost use Rattle.std.specs.Prelude.{◌≡◌};
ghost use Rattle.lotos_base.specs.Limits.{text_limit};
ghost use Rattle.lotos_base.specs.declared.limits.TheConstants.{TEXT_LIMIT};

/// How many bytes a specification, a library or an order file may have: 1,048,576.
pub const TEXT_LIMIT: usize = 1_048_576;

/// The constant is the number that the definitions give.
pub fn text_limit_is_stated()
    ensures { TEXT_LIMIT ≡ text_limit }
{}
