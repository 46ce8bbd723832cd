//! The bytes that the records of a body put into their segment.

ghost use Rattle.std.specs.Prelude.{◌≡◌, ◌-◌, ◌≤◌, ◌++◌, nat_lt, length, take, replicate};
ghost use Rattle.omf_format.specs.Reading.{IsBody};
ghost use Rattle.load_content.specs.Walk.{content};

use crate::content::{content_size, write_content};
use omf_records::Records;

/// The records put more bytes than this into the segment.
pub fn is_longer(records: Records, most: u32) -> bool
    requires { IsBody records }
    ensures { result ≡ nat_lt most (length (content records.entry)) }
{
    let mut records = records;
    let mut size = 0u64;
    'records: loop {
        match records.next() {
            Ok(None) => return false,
            Ok(Some(found)) => {
                size += content_size(&found.1);
                if size > u64::from(most) {
                    return true;
                }
            }
            Err(_) => unreachable!(),
        }
    }
}

/// Writes the bytes that the records put into the segment, and returns how many they are. Where they fill `out`, the records that are left
/// aren't read.
fn write_records(records: Records, out: &mut [u8]) -> usize
    requires body { IsBody records }
    requires fits { length (content records) ≤ length out.old }
    ensures written { take result out.new ≡ content records.entry }
    ensures size { result ≡ length (content records.entry) }
    ensures same { length out.new ≡ length out.old }
{
    let mut records = records;
    let mut at = 0;
    'records: loop {
        if at == out.len() {
            return at;
        }
        match records.next() {
            Ok(None) => return at,
            Ok(Some(found)) => {
                write_content(&found.1, out, at);
                at += content_size(&found.1) as usize;
            }
            Err(_) => unreachable!(),
        }
    }
}

/// Writes the bytes that the records put into the segment, and zeros after them.
pub fn write_body(records: Records, out: &mut [u8])
    requires body { IsBody records }
    requires fits { length (content records) ≤ length out.old }
    ensures { out.new ≡ content records.entry ++ replicate (length out.old - length (content records.entry)) 0 }
{
    let at = write_records(records, out);
    fill_from(out, at);
}

/// Zeros from a place on.
fn fill_from(out: &mut [u8], at: usize)
    requires { at ≤ length out.old }
    ensures { out.new ≡ take at out.old ++ replicate (length out.old - at) 0 }
{
    out[at..].fill(0);
}
