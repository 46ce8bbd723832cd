// What no clause says: that memory is enough, and what the definitions make of a script written out.
use crate::rows::is_well;
use loader_script::{Command, Script, ScriptFault, read_script};
use std::alloc::Global;
use std::test::Fail;

/// Whether a script has these three commands.
fn has_three(script: &Script) -> bool {
    let banks = match script.get(0) {
        Some(Command::Banks { list }) => list.bytes() == [0x02, 0xE1].as_slice(),
        _ => false,
    };
    let load = match script.get(1) {
        Some(Command::Load { path }) => path.bytes() == b"a/b".as_slice(),
        _ => false,
    };
    let bytes = match script.get(2) {
        Some(
            Command::Bytes {
                user,
                segment,
                at,
                length,
            },
        ) => (*user, *segment, *at, *length) == (1, 0xFFFF, 0xFFFF_FFFF, 256),
        _ => false,
    };
    banks && load && bytes && script.count() == 3 && script.get(3).is_none()
}

/// Whether lines end with LF, CR or both.
fn line_ends_are_read(alloc: Global) -> Result<bool, ScriptFault> {
    let script = read_script(
        alloc,
        b"banks 02 E1\r\n; a comment\r\rload a/b\nbytes 1 00FFFF FFFFFFFF 100",
    )?;
    let three = has_three(&script);
    drop(script);
    Ok(three)
}

#[test]
fn scripts_are_read(rt: HostRuntime) -> Result<(), Fail> {
    is_well(&rt, line_ends_are_read(rt.alloc())?);
    Ok(())
}
