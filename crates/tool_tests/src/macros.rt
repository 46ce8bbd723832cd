// The most lines that an expansion visits. These rows take seconds, so they are no rows of `rows`, which runs as two compilers build it.
use crate::rows::all_alike;
use orca_macro::{MacroCause, expand};
use std::alloc::{AllocError, Global};
use std::test::Fail;

/// A loop of 333,332 passes where the counter allows more: two lines are visited before it, and three in each pass.
const LOOP: &str = " ACTR 600000\n LCLA &I\n.A ANOP\n&I SETA &I+1\n AIF &I<333332,.A\n";

/// A fault's cause, its file and its line.
type Reported = (MacroCause, u32, u32);

/// Lines after the loop, of which two are the most, and the fault.
static AFTER: [(&str, Option<Reported>); 2] = [
    (" ANOP\n ANOP\n", None),
    (
        " ANOP\n ANOP\n ANOP\n",
        Some((MacroCause::TooManyLines, 0, 8)),
    ),
];

/// The fault of the loop with lines after it.
fn fault_of(alloc: Global, following: &str) -> Result<Option<Reported>, AllocError> {
    let mut source = String::from_str(alloc, LOOP)?;
    source.push_str(following)?;
    match expand(alloc, source.as_bytes(), &Vec::new(alloc)) {
        Ok(lines) => {
            drop(lines);
            Ok(None)
        }
        Err(fault) => Ok(Some((fault.cause, fault.file, fault.line))),
    }
}

/// The place of the first lines that have another fault.
fn first_unlike_fault(
    alloc: Global,
    rows: &[(&str, Option<Reported>)],
) -> Result<Option<usize>, AllocError> {
    for (place, (following, wanted)) in rows.iter().enumerate() {
        if fault_of(alloc, following)? != *wanted {
            return Ok(Some(place));
        }
    }
    Ok(None)
}

#[test]
fn a_million_lines_are_visited(rt: HostRuntime) -> Result<(), Fail> {
    all_alike(&rt, first_unlike_fault(rt.alloc(), &AFTER)?);
    Ok(())
}
