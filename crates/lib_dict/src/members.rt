//! Reading the files that go into a library.

ghost use Rattle.std.specs.Prelude.{◌≡◌, ◌<◌, ◌≤◌, ◌+◌, ◌^◌, length, map, All, IfOk, IfErr};
ghost use Rattle.lib_dict.specs.Library.{IsMember, AreMembers};
ghost use Rattle.lib_dict.specs.Made.{given_file, library_file, FirstDictionary, IsMemberRefused, IsLibRefused, FaultIn};

use crate::fault::{LibCause, LibFault, NOWHERE};
use crate::member::Member;
use crate::names_following::DICTIONARY;
use omf_base::Spot;
use omf_format::{FileCause, FileFault};
use omf_records::{SegmentList, segments};
use std::alloc::Global;

/// A file that was read: its name and its bytes, and its segments.
#[derive(Drop)]
pub struct MemberRead<'a> {
    pub member: &'a Member,
    pub list: SegmentList<'a>,
}

/// The number of the first segment that is a dictionary, from 1, and where it starts.
fn dictionary_in(list: &SegmentList) -> Option<(u32, u32)>
    requires { length list.now + 2 < 2 ^ 32 }
    ensures { FirstDictionary list.now result }
{
    let mut passed = 0;
    'segments: loop {
        let view = match list.get(passed + 1) {
            Some(view) => view,
            None => return None,
        };
        if view.header.kind.form() == DICTIONARY {
            return Some((passed + 1, view.start));
        }
        passed += 1;
    }
}

/// A fault of this cause, in the file with this number.
fn fault_in(cause: LibCause, file: u32, fault: FileFault) -> LibFault
    ensures { result ≡ record { cause = cause; spot = record { file = file; segment = fault.segment; at = fault.at } } }
{
    LibFault {
        cause,
        spot: Spot {
            file,
            segment: fault.segment,
            at: fault.at,
        },
    }
}

/// A file's fault as one of the library's, in the file with this number.
fn file_fault(fault: FileFault, file: u32) -> LibFault
    ensures reported { FaultIn fault file result }
    ensures memory { result.cause ≡ LibCause.Memory → fault.cause ≡ FileCause.Memory }
{
    match fault.cause {
        FileCause::Truncated => fault_in(LibCause::Truncated, file, fault),
        FileCause::BadHeader => fault_in(LibCause::BadHeader, file, fault),
        FileCause::Unsupported => fault_in(LibCause::Unsupported, file, fault),
        FileCause::BadRecord => fault_in(LibCause::BadRecord, file, fault),
        FileCause::Memory => LibFault {
            cause: LibCause::Memory,
            spot: NOWHERE,
        },
    }
}

/// The file with this number, read. Its own first fault is reported first, and then a dictionary among its segments.
fn read_member<'a>(alloc: Global, member: &'a Member, file: u32) -> Result<MemberRead<'a>, LibFault>
    requires { length member.now.bytes.items < 2 ^ 32 }
    ensures ok { IfOk result (λ read. IsMember (given_file member.now) (library_file read)) }
    ensures err { IfErr result (λ fault. IsMemberRefused fault file member.now.bytes.items) }
{
    let list = match segments(alloc, &member.bytes) {
        Ok(list) => list,
        Err(fault) => return Err(file_fault(fault, file)),
    };
    match dictionary_in(&list) {
        None => Ok(MemberRead { member, list }),
        Some((segment, at)) => Err(LibFault {
            cause: LibCause::BadRecord,
            spot: Spot { file, segment, at },
        }),
    }
}

/// All files, read in order.
pub fn read_members<'a>(
    alloc: Global,
    members: &'a Vec<Member>,
) -> Result<Vec<MemberRead<'a>>, LibFault>
    requires few { length members.now.items ≤ 65535 }
    requires short { All (λ m. length m.bytes.items < 2 ^ 32) members.now.items }
    ensures ok { IfOk result (λ reads. AreMembers (map given_file members.now.items) (map library_file reads.items)) }
    ensures err { IfErr result (λ fault. IsLibRefused fault (map given_file members.now.items)) }
{
    let mut reads = Vec::with_capacity(alloc, members.len())?;
    let mut file = 1;
    'members: for member in members {
        let read = read_member(alloc, member, file)?;
        reads.push(read)?;
        file += 1;
    }
    Ok(reads)
}
