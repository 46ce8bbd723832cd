// The calls of a loader that take memory. A test has all memory, so here each call succeeds; `tools/refuse-calls` runs this test again with one
// allocation refused after the other. A call that is refused then changes nothing, and made again it succeeds.
use crate::asserting::same;
use crate::programs::{CALLING_CODE, DYNAMIC, TABLE, file_of};
use omf_io::{MemoryFiles, WriteFault};
use std::alloc::{AllocError, Global};
use std::process::Abort;
use std::test::Fail;
use sys_loader::{Info, Loader, LoaderFault};

/// A call that takes memory.
#[derive(Clone, Copy)]
enum LoaderCall {
    Load,
    LoadSegment,
    Jsl,
    Restart,
}

// The calls as the test makes them. They promise nothing, so its proof is as short as the test.
fn load(loader: &mut Loader, files: &mut MemoryFiles) -> Result<u32, LoaderFault> {
    Ok(loader.load(files, "p")?.entry.unwrap_or(0))
}

fn load_segment(loader: &mut Loader, files: &mut MemoryFiles) -> Result<u32, LoaderFault> {
    loader.load_segment(files, 0x1001, 2)
}

fn jsl(loader: &mut Loader, files: &mut MemoryFiles) -> Result<u32, LoaderFault> {
    Ok(loader.jsl(files, 0x1001, 1, 0)?.address)
}

fn restart(loader: &mut Loader, files: &mut MemoryFiles) -> Result<u32, LoaderFault> {
    Ok(loader.restart(files, 0x1001)?.entry.unwrap_or(0))
}

/// Makes a call, and returns the address that it answers.
fn made(
    loader: &mut Loader,
    files: &mut MemoryFiles,
    call: LoaderCall,
) -> Result<u32, LoaderFault> {
    match call {
        LoaderCall::Load => load(loader, files),
        LoaderCall::LoadSegment => load_segment(loader, files),
        LoaderCall::Jsl => jsl(loader, files),
        LoaderCall::Restart => restart(loader, files),
    }
}

/// The sum of bytes, each doubled as often as bytes are after it.
fn sum_of(bytes: &[u8]) -> u32 {
    let mut sum = 0u32;
    for byte in bytes {
        sum = sum.wrapping_mul(2).wrapping_add(*byte as u32);
    }
    sum
}

/// The sum of a segment's bytes.
fn sum(loader: &Loader, segment: u16, length: u32) -> Option<u32> {
    Some(sum_of(loader.bytes(0x1001, segment, 0, length).ok()?))
}

fn info(loader: &Loader, segment: u16) -> Result<Info, LoaderFault> {
    loader.info(0x1001, segment)
}

/// What a loader shows of a segment of its first user.
type Seen = (Result<Info, LoaderFault>, Option<u32>);

fn seen(loader: &Loader, segment: u16, length: u32) -> Seen {
    (info(loader, segment), sum(loader, segment, length))
}

/// What it shows of the code, of the dynamic segment and of the table, and the room that it has.
fn all_seen(loader: &Loader) -> (Seen, Seen, Seen, u32) {
    (
        seen(loader, 1, 4),
        seen(loader, 2, 2),
        seen(loader, 3, 26),
        loader.room(),
    )
}

/// What a call answers. Where memory is refused it changes nothing, and is made again; there is no answer where it changes something.
fn answer(
    loader: &mut Loader,
    files: &mut MemoryFiles,
    call: LoaderCall,
) -> Option<Result<u32, LoaderFault>> {
    let before = all_seen(loader);
    let answer = made(loader, files, call);
    if answer != Err(LoaderFault::Memory) {
        return Some(answer);
    }
    if before != all_seen(loader) {
        return None;
    }
    Some(made(loader, files, call))
}

fn loader_of_bank_0(alloc: Global) -> Result<Loader, AllocError> {
    match Loader::new(alloc, &[0]) {
        Ok(loader) => Ok(loader),
        Err(_) => Err(AllocError),
    }
}

fn put_file(files: &mut MemoryFiles, path: &str, bytes: &[u8]) -> Result<(), WriteFault> {
    files.set(path, bytes)
}

/// Code with a call of the table's one entry, a dynamic segment, and the table.
fn put_program(alloc: Global, files: &mut MemoryFiles) -> Result<(), Fail> {
    let program = file_of(alloc, &[&CALLING_CODE, &DYNAMIC, &TABLE])?;
    put_file(files, "p", program.as_slice())?;
    Ok(())
}

/// Whether the dynamic segment is poked and let go.
fn is_let_go(loader: &mut Loader) -> bool {
    loader.poke(0x1001, 2, 0, 0x55) == Ok(()) && loader.unload_segment(0x1001, 2) == Ok(())
}

/// How many blocks are purged.
fn purged(loader: &mut Loader) -> Result<u32, LoaderFault> {
    loader.purge(0x1001)
}

fn shut_down(loader: &mut Loader) -> Result<(), LoaderFault> {
    loader.shut_down(0x1001, true)
}

// The code, and after it the table; the dynamic segment is placed after both, is entered at its second byte, and is loaded again where it
// was purged.
fn starts(rt: &impl Abort, loader: &mut Loader, files: &mut MemoryFiles) {
    same(
        rt,
        0,
        answer(loader, files, LoaderCall::Load),
        Some(Ok(0x800)),
    );
    same(
        rt,
        1,
        answer(loader, files, LoaderCall::LoadSegment),
        Some(Ok(0x81E)),
    );
    same(rt, 2, is_let_go(loader), true);
    same(rt, 3, purged(loader), Ok(1));
    same(
        rt,
        4,
        answer(loader, files, LoaderCall::Jsl),
        Some(Ok(0x81F)),
    );
    same(rt, 5, sum(loader, 2, 2), Some(0xEA * 2 + 0x6B));
}

// The program begins anew where it was.
fn starts_anew(rt: &impl Abort, loader: &mut Loader, files: &mut MemoryFiles) {
    same(rt, 6, shut_down(loader), Ok(()));
    same(rt, 7, purged(loader), Ok(3));
    same(
        rt,
        8,
        answer(loader, files, LoaderCall::Restart),
        Some(Ok(0x800)),
    );
    same(
        rt,
        9,
        sum(loader, 1, 4),
        Some(0x22 * 8 + 0x16 * 4 + 0x08 * 2),
    );
}

fn make_calls(
    rt: &(impl Alloc<A = Global> + Abort),
    loader: &mut Loader,
    files: &mut MemoryFiles,
) -> Result<(), Fail> {
    put_program(rt.alloc(), files)?;
    starts(rt, loader, files);
    starts_anew(rt, loader, files);

    // Where this is refused, each allocation before it was.
    put_file(files, "end", b"")?;
    Ok(())
}

fn makes(rt: &(impl Alloc<A = Global> + Abort), loader: &mut Loader) -> Result<(), Fail> {
    let alloc = rt.alloc();
    let mut files = MemoryFiles::new(alloc, Vec::new(alloc));
    make_calls(rt, loader, &mut files)
}

#[test]
fn a_refused_call_changes_nothing(rt: HostRuntime) -> Result<(), Fail> {
    let mut loader = loader_of_bank_0(rt.alloc())?;
    makes(&rt, &mut loader)
}
