// Whole files through readers and writers.
ghost use Rattle.std.specs.Prelude.{◌≡◌, ◌⊎◌, ◌↔◌, ◌<◌, ◌≤◌, length, IfOk, IfErr, OnOk, IfSome, take};
ghost use Rattle.std.specs.Io.{ReadsAtMost};
ghost use Rattle.std.specs.IoError.{error_kind};
ghost use Rattle.std.specs.Io.KnownBytes.{Appends, Consumes};
ghost use Rattle.omf_io.specs.Files.{max_file};

use crate::{MAX_FILE, ReadFault};
use std::alloc::Global;
use std::io::{self, Error, ErrorKind, Read, Write};

/// How many bytes are read at once: so few that they are still near the processor when they are copied.
const PIECE: usize = 0x1_0000;

/// Why a stream that was there gave no bytes: it was out of memory exactly where the error says so.
fn stream_fault(error: Error) -> ReadFault
    ensures cause { (result ≡ ReadFault.Failed) ⊎ (result ≡ ReadFault.Memory) }
    ensures memory { result ≡ ReadFault.Memory ↔ error_kind error ≡ ErrorKind.OutOfMemory }
{
    match error.kind() {
        ErrorKind::OutOfMemory => ReadFault::Memory,
        _ => ReadFault::Failed,
    }
}

/// Why nothing was opened, or nothing reported of it: nothing is there, or it was out of memory, exactly where the error says so.
pub fn open_fault(error: Error) -> ReadFault
    ensures absent { result ≡ ReadFault.Absent ↔ error_kind error ≡ ErrorKind.NotFound }
    ensures memory { result ≡ ReadFault.Memory ↔ error_kind error ≡ ErrorKind.OutOfMemory }
    ensures long { result ≡ ReadFault.TooLong → ⊥ }
{
    match error.kind() {
        ErrorKind::NotFound => ReadFault::Absent,
        _ => stream_fault(error),
    }
}

/// All bytes that a reader has left, at most 16,777,216. `reported` is said to be their number, and may be wrong.
pub fn read_whole<R: Read + Drop>(
    alloc: Global,
    reader: R,
    reported: u64,
) -> Result<Vec<u8>, ReadFault>
    // They are all, and not too many.
    ensures bytes { IfOk result (λ bytes. IfSome (R.remaining reader) (λ left. bytes.items ≡ left)) }
    ensures limit { IfOk result (λ bytes. length bytes.items ≤ max_file) }

    // TooLong is returned only where they are more, whatever was reported; and Absent never.
    ensures long { IfErr result (λ fault. fault ≡ ReadFault.TooLong → IfSome (R.remaining reader) (λ left. max_file < length left)) }
    ensures present { IfErr result (λ fault. fault ≡ ReadFault.Absent → ⊥) }
{
    // One byte more than there are leaves room to find the end.
    let room = reported.min(MAX_FILE as u64) as usize + 1;
    let mut front = reader.take(MAX_FILE as u64 + 1);
    let mut bytes = front_of(alloc, &mut front, room).map_err(stream_fault)?;
    front.read_to_end(&mut bytes).map_err(stream_fault)?;
    if bytes.len() > MAX_FILE {
        return Err(ReadFault::TooLong);
    }
    Ok(bytes)
}

/// Reads piece by piece until there are `room` bytes, for which space is allocated at once, or a read gives nothing.
fn front_of<R: Read>(alloc: Global, reader: &mut R, room: usize) -> io::Result<Vec<u8>>
    ensures { IfOk result (λ bytes. Consumes (R.remaining reader.old) (R.remaining reader.new) bytes.items) }
{
    let mut bytes = Vec::with_capacity(alloc, room)?;
    let mut piece = vec![in alloc; 0; room.min(PIECE)]?;
    'pieces: while bytes.len() < room {
        let count = read_piece(reader, &mut piece)?;
        if count == 0 {
            break;
        }
        bytes.extend_from_slice(&piece[..count])?;
    }
    Ok(bytes)
}

/// One read, which gives nothing where a signal interrupts it.
fn read_piece<R: Read>(reader: &mut R, buffer: &mut [u8]) -> io::Result<usize>
    ensures bound { ReadsAtMost result buffer.new }
    ensures bytes { IfOk result (λ count. Consumes (R.remaining reader.old) (R.remaining reader.new) (take count buffer.new)) }
{
    match reader.read(buffer) {
        Err(error) if error.kind() == ErrorKind::Interrupted => Ok(0),
        read => read,
    }
}

/// Writes all bytes: it is Ok only where the writer took each of them, in order.
pub fn write_whole<W: Write>(writer: &mut W, bytes: &[u8]) -> io::Result<()>
    ensures { OnOk result (Appends (W.contents writer.old) (W.contents writer.new) bytes.now) }
{
    writer.write_all(bytes)
}
