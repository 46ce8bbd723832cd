//! Locations by the type of a SUPER.

ghost use Rattle.std.specs.Prelude.{◌≡◌, ◌<◌, [], length, map, replicate, IfOk, OnOk};
ghost use Rattle.load_writer.specs.WrittenParts.{put_in};

use crate::written::BodyFault;
use std::alloc::Global;

/// A list without locations for each type.
pub fn no_locations(alloc: Global) -> Result<Vec<Vec<u32>>, BodyFault>
    ensures { IfOk result (λ lists. map (λ l. l.items) lists.items ≡ replicate 38 []) }
{
    let mut lists = Vec::new(alloc);
    'forms: while lists.len() < 38 {
        lists.push(Vec::new(alloc))?;
    }
    Ok(lists)
}

/// Puts a location after those of a type.
pub fn put_in(lists: &mut Vec<Vec<u32>>, form: u8, at: u32) -> Result<(), BodyFault>
    requires { form < length lists.old.items }
    ensures { OnOk result (map (λ l. l.items) lists.new.items ≡ put_in (map (λ l. l.items) lists.old.items) form at) }
{
    lists[usize::from(form)].push(at)?;
    Ok(())
}
