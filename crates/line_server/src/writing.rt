//! The writing of a whole text.

ghost use Rattle.std.specs.Prelude.{◌≡◌, ◌≤◌, MatchResult};
ghost use Rattle.lotos_base.specs.Outside.{Fails, Stands};
ghost use Rattle.line_server.specs.Writing.{WritesAll, WritesBeginning};

use lotos_base::{Failed, Sink};

/// Writes the whole text, piece by piece. It stops at the first failure, behind which the output is
/// not called again.
pub fn write_whole<K: Sink>(output: &mut K, text: &[u8]) -> Result<(), Failed>
    ensures written { MatchResult result
        (λ _. WritesAll (K.state output.old).bytes (K.state output.new).bytes text.now)
        (λ _. WritesBeginning (K.state output.old).bytes (K.state output.new).bytes text.now) }
    ensures counts { MatchResult result
        (λ _. Stands (K.state output.old) (K.state output.new))
        (λ _. Fails (K.state output.old) (K.state output.new)) }
{
    let mut count = 0;
    while count < text.len() {
        count += output.write(&text[count..])?;
    }
    Ok(())
}
