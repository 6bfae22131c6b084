ghost use Rattle.std.specs.Prelude.{◌≡◌, ◌≢◌, ◌≤◌, Err, ℕ, length, IsErrOf, OnOk, IfOk, IfSome, vec_len};
ghost use Rattle.std.specs.Io.KnownBytes.{Appends, IsAtEnd};
ghost use Rattle.sym_io.specs.Causes.{HasCause, Rose};
ghost use Rattle.sym_io.specs.Reading.{TakesWithin};
ghost use Rattle.sym_io.specs.Writing.{AppendsPart};

use crate::{Failed, ReadAllFault, Sink, Source};
use std::alloc::Global;

/// How many bytes a source is asked for at a time.
pub const PIECE_SIZE: usize = 16384;

/// All bytes that the source has left, at most `limit` of them. Every turn takes at least one byte, and at most
/// `PIECE_SIZE` bytes past the limit are taken. The fault that occurs first decides: a fault of the source,
/// more bytes taken than the limit, want of memory.
pub fn read_all<I: Source>(
    alloc: Global,
    input: &mut I,
    limit: u32,
) -> Result<Vec<u8>, ReadAllFault>
    ensures bytes { IfOk result (λ bytes. IfSome (I.left input.old) (λ left. bytes.items ≡ left)) }
    ensures ended { OnOk result (IsAtEnd (I.left input.new)) }
    ensures small { IfOk result (λ bytes. vec_len bytes ≤ limit) }
    ensures too_long { TakesWithin (I.left input.old) (I.left input.new) limit
        (IsErrOf result ReadAllFault.TooLong) }
    ensures faults { I.faults input.old ≤ I.faults input.new }
    ensures faultless { result ≢ Err ReadAllFault.ReadFault → I.faults input.new ≡ I.faults input.old }
    ensures read_fault { IsErrOf result ReadAllFault.ReadFault
        → Rose (I.faults input.old) (I.faults input.new) }
{
    let mut bytes = Vec::new(alloc);
    let mut chunk = [0u8; PIECE_SIZE];
    'pieces: loop {
        match input.read(&mut chunk) {
            Err(_) => return Err(ReadAllFault::ReadFault),
            Ok(0) => return Ok(bytes),
            Ok(count) => {
                if count > limit as usize - bytes.len() {
                    return Err(ReadAllFault::TooLong);
                }
                if bytes.extend_from_slice(&chunk[..count]).is_err() {
                    return Err(ReadAllFault::OutOfMemory);
                }
            }
        }
    }
}

/// Appends all of the bytes to the sink. Where it fails, the first of them were appended and the sink has
/// counted a fault. It takes no memory.
pub fn write_all<O: Sink>(output: &mut O, bytes: &[u8]) -> Result<(), Failed>
    ensures whole { OnOk result (Appends (O.written output.old) (O.written output.new) bytes.now) }
    ensures part { AppendsPart (O.written output.old) (O.written output.new) bytes.now }
    ensures cause { HasCause (O.faults output.old) (O.faults output.new) result }
{
    let mut at = 0;
    while at < bytes.len() {
        at += output.write(&bytes[at..])?;
    }
    Ok(())
}
