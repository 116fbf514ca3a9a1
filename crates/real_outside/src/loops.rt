//! The two loops of the real shelf, over any reader and any writer.

ghost use Rattle.std.specs.Prelude.{◌≡◌, ◌<◌, ◌≤◌, [], length, OnOk};
ghost use Rattle.std.specs.Io.KnownBytes.{Appends, Consumes, IsAtEnd};

use lotos_base::{GetFault, PutFault};
use std::io::{Read, Write};

/// How many bytes are read at once.
const PIECE: usize = 4096;

/// Reads up to `limit` bytes, or to the end of the file.
///
/// What is read is what the reader gave, from the front, and fewer bytes than the limit mean that
/// nothing is left. The first error of the reader ends the loop.
pub fn read_up_to<F: Read>(file: &mut F, limit: usize, into: &mut Vec<u8>) -> Result<(), GetFault>
    requires { into.old.items ≡ [] }
    ensures within { length into.new.items ≤ limit }
    ensures front { OnOk result (Consumes (F.remaining file.old) (F.remaining file.new)
        into.new.items) }
    ensures whole { OnOk result (length into.new.items < limit → IsAtEnd (F.remaining file.new)) }
{
    let mut piece = [0u8; PIECE];
    while into.len() < limit {
        let wanted = (limit - into.len()).min(piece.len());
        let count = match file.read(&mut piece[..wanted]) {
            Ok(0) => return Ok(()),
            Ok(count) => count,
            Err(_) => return Err(GetFault::Failed),
        };
        if into.extend_from_slice(&piece[..count]).is_err() {
            return Err(GetFault::NoMemory);
        }
    }
    Ok(())
}

/// Writes all the bytes. The first error of the writer ends the loop, and so does a write that
/// takes no byte.
pub fn write_all_of<F: Write>(file: &mut F, bytes: &[u8]) -> Result<(), PutFault>
    ensures { OnOk result (Appends (F.contents file.old) (F.contents file.new) bytes.now) }
{
    let mut written = 0;
    while written < bytes.len() {
        match file.write(&bytes[written..]) {
            Ok(0) => return Err(PutFault::Failed),
            Ok(count) => written += count,
            Err(_) => return Err(PutFault::Failed),
        }
    }
    Ok(())
}
