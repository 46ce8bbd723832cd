// Slots and their handles. A test is a list of steps, so that its proof is short.
use crate::asserting::same;
use iigs_handles::{Handle, Handles, Stale};
use std::alloc::Global;
use std::process::Abort;
use std::test::Fail;

/// A call, and what is answered.
enum Step {
    Take(u32, Result<Handle, u32>),
    Release(Handle, Result<u32, Stale>),
    Look(Handle, Result<u32, Stale>),
    /// The value of a handle is set.
    Change(Handle, u32, Result<(), Stale>),
    Left(u32),
    /// All slots are taken, one after the other.
    Fill,
    /// The first slot is taken and released under each generation.
    UseUp,
}

// The first slots, and what they are under later generations.
const SLOT_0: Handle = Handle {
    slot: 0,
    generation: 0,
};

const SLOT_0_1: Handle = Handle {
    slot: 0,
    generation: 1,
};

const SLOT_0_2: Handle = Handle {
    slot: 0,
    generation: 2,
};

const SLOT_0_255: Handle = Handle {
    slot: 0,
    generation: 255,
};

const SLOT_1: Handle = Handle {
    slot: 1,
    generation: 0,
};

const SLOT_1_1: Handle = Handle {
    slot: 1,
    generation: 1,
};

const SLOT_2: Handle = Handle {
    slot: 2,
    generation: 0,
};

const SLOT_3: Handle = Handle {
    slot: 3,
    generation: 0,
};

// No slots of a table.
const SLOT_4096: Handle = Handle {
    slot: 4096,
    generation: 0,
};

const SLOT_65535: Handle = Handle {
    slot: 65535,
    generation: 0,
};

// The calls as the steps make them. They promise nothing.
fn table(alloc: Global) -> Result<Handles<u32>, Fail> {
    Ok(Handles::new(alloc)?)
}

fn take(handles: &mut Handles<u32>, value: u32) -> Result<Handle, u32> {
    handles.take(value)
}

fn release(handles: &mut Handles<u32>, h: Handle) -> Result<u32, Stale> {
    handles.release(h)
}

fn look(handles: &Handles<u32>, h: Handle) -> Result<u32, Stale> {
    handles.look(h).copied()
}

fn change(handles: &mut Handles<u32>, h: Handle, later: u32) -> Result<(), Stale> {
    *handles.change(h)? = later;
    Ok(())
}

fn left(handles: &Handles<u32>) -> u32 {
    handles.left()
}

// The value of a slot is its place.
fn fill(rt: &impl Abort, handles: &mut Handles<u32>) {
    for slot in 0..4096u16 {
        let value = u32::from(slot);
        let at = usize::from(slot);
        let h = Handle {
            slot,
            generation: 0,
        };
        same(rt, at, left(handles), 4096 - value);
        same(rt, at, take(handles, value), Ok(h));
    }
}

fn use_up(rt: &impl Abort, handles: &mut Handles<u32>) {
    for generation in 0..=255u8 {
        let value = u32::from(generation);
        let at = usize::from(generation);
        let h = Handle {
            slot: 0,
            generation,
        };
        same(rt, at, take(handles, value), Ok(h));
        same(rt, at, release(handles, h), Ok(value));
        same(rt, at, release(handles, h), Err(Stale));
    }
}

fn make(rt: &impl Abort, handles: &mut Handles<u32>, at: usize, step: &Step) {
    match step {
        Step::Take(value, is) => same(rt, at, take(handles, *value), *is),
        Step::Release(h, is) => same(rt, at, release(handles, *h), *is),
        Step::Look(h, is) => same(rt, at, look(handles, *h), *is),
        Step::Change(h, later, is) => same(rt, at, change(handles, *h, *later), *is),
        Step::Left(count) => same(rt, at, left(handles), *count),
        Step::Fill => fill(rt, handles),
        Step::UseUp => use_up(rt, handles),
    }
}

fn make_all(rt: &impl Abort, handles: &mut Handles<u32>, steps: &[Step]) {
    for (at, step) in steps.iter().enumerate() {
        make(rt, handles, at, step);
    }
}

/// Makes the steps with a table.
fn run(rt: &(impl Alloc<A = Global> + Abort), steps: &[Step]) -> Result<(), Fail> {
    let mut handles = table(rt.alloc())?;
    make_all(rt, &mut handles, steps);
    Ok(())
}

static FULL: [Step; 5] = [
    Step::Fill,
    Step::Take(7, Err(7)),
    Step::Left(0),
    Step::Look(SLOT_4096, Err(Stale)),
    Step::Look(SLOT_65535, Err(Stale)),
];

// The 4,097th value has no slot and is handed back.
#[test]
fn a_full_table_hands_the_value_back(rt: HostRuntime) -> Result<(), Fail> {
    run(&rt, &FULL)
}

static RETIRED: [Step; 4] = [
    Step::UseUp,
    Step::Left(4095),
    Step::Take(9, Ok(SLOT_1)),
    Step::Look(SLOT_0_255, Err(Stale)),
];

// A slot is used under 256 handles and then left out.
#[test]
fn a_slot_is_retired_after_256_generations(rt: HostRuntime) -> Result<(), Fail> {
    run(&rt, &RETIRED)
}

static TAKES: [Step; 16] = [
    Step::Take(10, Ok(SLOT_0)),
    Step::Take(11, Ok(SLOT_1)),
    Step::Take(12, Ok(SLOT_2)),
    Step::Release(SLOT_1, Ok(11)),
    Step::Release(SLOT_0, Ok(10)),
    Step::Left(4095),
    Step::Take(13, Ok(SLOT_0_1)),
    Step::Take(14, Ok(SLOT_1_1)),
    Step::Take(15, Ok(SLOT_3)),
    Step::Look(SLOT_0, Err(Stale)),
    Step::Look(SLOT_0_1, Ok(13)),
    Step::Look(SLOT_0_2, Err(Stale)),
    Step::Change(SLOT_2, 99, Ok(())),
    Step::Change(SLOT_1, 98, Err(Stale)),
    Step::Look(SLOT_2, Ok(99)),
    Step::Look(SLOT_1_1, Ok(14)),
];

// Worked out by hand: the lowest slot is taken again, under the next generation, and the old handle reaches nothing.
#[test]
fn takes_releases_and_looks(rt: HostRuntime) -> Result<(), Fail> {
    run(&rt, &TAKES)
}

static DIGITS: [(u16, u8, &str); 3] = [
    (0, 1, "000001"),
    (3, 0, "000300"),
    (0x0ABC, 0xDE, "0ABCDE"),
];

fn is_printed(alloc: Global, h: Handle, text: &str) -> Result<bool, Fail> {
    let printed = format!(in alloc; "{h}")?;
    Ok(printed.as_str() == text)
}

#[test]
fn prints_six_digits(rt: HostRuntime) -> Result<(), Fail> {
    for (n, (slot, generation, text)) in DIGITS.iter().enumerate() {
        let h = Handle {
            slot: *slot,
            generation: *generation,
        };
        same(&rt, n, is_printed(rt.alloc(), h, text)?, true);
    }
    Ok(())
}
