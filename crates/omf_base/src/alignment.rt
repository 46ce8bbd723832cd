//! Gaps before aligned places (GS/OS Reference, appendix F, ALIGN).

ghost use Rattle.std.specs.Prelude.{◌≡◌};
ghost use Rattle.omf_format.specs.Number.{padding};

/// How far it is to the least multiple of a step at or after a place, in bytes; 0 for the step 0.
#[tactic(auto, unfolding(omf_format::specs::Number::padding))]
pub fn padding(step: u32, at: u32) -> u32
    ensures { result ≡ padding step at }
{
    if step == 0 {
        return 0;
    }
    let (step, at) = (u64::from(step), u64::from(at));
    let pad = at.next_multiple_of(step) - at;
    pad as u32
}
