// Bytes from any reader and to any writer, to their end.
ghost use Rattle.std.specs.Prelude.{◌≡◌, IfOk, OnOk, OnErr};
ghost use Rattle.std.specs.Bool.{OnTrue, OnFalse};
ghost use Rattle.std.specs.Io.KnownBytes.{Appends};
ghost use Rattle.ppc_outside.specs.inside.Transfer.{AppendsFront, AppendsSome, AppendsPart, IsBrief};

use crate::outside::OutsideError;
use std::io::{Read, Write};

/// How many bytes are asked of a reader at once.
const CHUNK: usize = 0x4000;

// Appends what one read gives, of at most `room` bytes: how many bytes came.
fn read_some<F: Read>(
    reader: &mut F,
    room: usize,
    into: &mut Vec<u8>,
) -> Result<usize, OutsideError>
    ensures ok { IfOk result (λ count. AppendsSome (F.remaining reader.old)
        (F.remaining reader.new) room count into.old.items into.new.items) }
    ensures err { OnErr result (into.new.items ≡ into.old.items) }
{
    let mut buffer = [0u8; CHUNK];
    let asked = room.min(CHUNK);
    match reader.read(&mut buffer[..asked]) {
        Ok(count) => match into.extend_from_slice(&buffer[..count]) {
            Ok(()) => Ok(count),
            Err(_) => Err(OutsideError::Memory),
        },
        Err(_) => Err(OutsideError::Failed),
    }
}

/// Appends a reader's first bytes: all that it gives up to its end, or `limit` of them, and says how many turns that took. A turn takes
/// at least one byte, but the last, which may find the end; so there are at most `limit` turns, and at most one more than bytes. After an
/// error nothing is appended.
pub fn read_front<F: Read>(
    reader: &mut F,
    limit: usize,
    into: &mut Vec<u8>,
) -> Result<usize, OutsideError>
    ensures ok { OnOk result
        (AppendsFront (F.remaining reader.old) limit into.old.items into.new.items) }
    ensures turns { IfOk result (λ turns. IsBrief limit turns into.old.items into.new.items) }
    ensures err { OnErr result (into.new.items ≡ into.old.items) }
{
    let start = into.len();
    let mut taken = 0;
    for turn in 0..limit {
        match read_some(reader, limit - taken, into) {
            Ok(0) => return Ok(turn + 1),
            Ok(count) => taken += count,
            Err(error) => {
                into.truncate(start);
                return Err(error);
            }
        }
    }
    Ok(limit)
}

/// Writes all the bytes, and says whether the writer took them. A turn writes at least one byte: a write that takes nothing of a rest
/// that isn't empty is an error.
pub fn write_whole<W: Write>(writer: &mut W, bytes: &[u8]) -> bool
    ensures taken { OnTrue result
        (Appends (W.contents writer.old) (W.contents writer.new) bytes.now) }
    ensures cut { OnFalse result
        (AppendsPart (W.contents writer.old) (W.contents writer.new) bytes.now) }
{
    let mut at = 0;
    for _turn in 0..bytes.len() {
        if at >= bytes.len() {
            return true;
        }
        match writer.write(&bytes[at..]) {
            Ok(0) => return false,
            Ok(count) => at += count,
            Err(_) => return false,
        }
    }
    at >= bytes.len()
}
