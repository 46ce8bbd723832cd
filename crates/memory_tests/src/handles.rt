// Handles by their slots, and where it isn't 0 their generation.
use iigs_meaning::Handle;

pub(crate) const SLOT_0: Handle = Handle {
    slot: 0,
    generation: 0,
};

pub(crate) const SLOT_0_1: Handle = Handle {
    slot: 0,
    generation: 1,
};

pub(crate) const SLOT_1: Handle = Handle {
    slot: 1,
    generation: 0,
};

pub(crate) const SLOT_2: Handle = Handle {
    slot: 2,
    generation: 0,
};

pub(crate) const SLOT_3: Handle = Handle {
    slot: 3,
    generation: 0,
};

pub(crate) const SLOT_4: Handle = Handle {
    slot: 4,
    generation: 0,
};
