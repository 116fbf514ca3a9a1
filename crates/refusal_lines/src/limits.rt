//! The limits on the words of a command line.

ghost use Rattle.refusal_lines.specs.WordLimits.{are_within, words_of};
ghost use Rattle.std.specs.Prelude.{◌≡◌};

/// How many words a command line may have.
pub const WORDS_LIMIT: usize = 65_536;

/// How many bytes the words of a command line may have together.
pub const WORD_BYTES_LIMIT: usize = 1_048_576;

/// Whether the words are within the limits on a command line.
pub fn are_within_limits(words: &[String]) -> bool
    ensures { result ≡ are_within (words_of words.now) }
{
    if words.len() > WORDS_LIMIT {
        return false;
    }
    let mut total = 0;
    for word in words {
        if word.len() > WORD_BYTES_LIMIT - total {
            return false;
        }
        total += word.len();
    }
    true
}
