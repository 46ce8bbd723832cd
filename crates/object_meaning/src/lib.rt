//! What the segments of an object file hold: where each record is and how many cells it gives, the trees that its expressions
//! spell, and what its segments define (GS/OS Reference, appendix F). The assembler, the lister and the linker share these
//! definitions; they are in `specs/`.
#![tactic(auto)]
