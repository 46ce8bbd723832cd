//! Maps by name.

ghost use Rattle.std.specs.Prelude.{◌≡◌, ℕ, List, Some, bytes_eq, is_none, IfOk, OnOk, OnErr, MatchOption, if◌then◌else◌, None, option_copied};
ghost use Rattle.name_map.specs.Held.{value_of_name};

use indexmap::IndexMap;
use std::alloc::{AllocError, Global};

/// Values by name. Names keep the order in which they came.
pub type NameMap<V> = IndexMap<Vec<u8>, V>;

/// Gives a name that has a value another one. Where it has none, the value is handed back.
fn replace_value<V: Drop>(map: &mut NameMap<V>, name: &[u8], value: V) -> Option<V>
    ensures { MatchOption result
        ((q : List ℕ) → value_of_name map.new q ≡ (if bytes_eq name.now q then Some value else value_of_name map.old q))
        (λ back. (back ≡ value) × (map.new ≡ map.old)) }
{
    match map.get_mut(name) {
        Some(slot) => {
            *slot = value;
            None
        }
        None => Some(value),
    }
}

/// Gives a name a value, whether it has one or not: whether it had none.
#[tactic(auto, using(crate::proofs::Maps::updated, crate::proofs::Maps::unchanged))]
pub fn insert_new_name<V: Drop>(
    alloc: Global,
    map: &mut NameMap<V>,
    name: &[u8],
    value: V,
) -> Result<bool, AllocError>
    ensures ok { OnOk result ((q : List ℕ) → value_of_name map.new q ≡ (if bytes_eq name.now q then Some value else value_of_name map.old q)) }
    ensures err { OnErr result ((q : List ℕ) → value_of_name map.new q ≡ value_of_name map.old q) }
    ensures fresh { IfOk result (λ fresh. fresh ≡ is_none (value_of_name map.old name.now)) }
{
    let key = Vec::from_slice(alloc, name)?;
    match map.insert(key, value) {
        Ok(old) => Ok(old.is_none()),
        Err(_) => Err(AllocError),
    }
}

/// Gives a name a value. A name that has one isn't copied.
pub fn insert_by_name<V: Drop>(
    alloc: Global,
    map: &mut NameMap<V>,
    name: &[u8],
    value: V,
) -> Result<(), AllocError>
    ensures ok { OnOk result ((q : List ℕ) → value_of_name map.new q ≡ (if bytes_eq name.now q then Some value else value_of_name map.old q)) }
    ensures err { OnErr result ((q : List ℕ) → value_of_name map.new q ≡ value_of_name map.old q) }
{
    match replace_value(map, name, value) {
        None => Ok(()),
        Some(back) => {
            insert_new_name(alloc, map, name, back)?;
            Ok(())
        }
    }
}

/// Up to how many names are looked through one by one.
const FEW: usize = 8;

/// Whether two names are the same. Most that differ do so in their first bytes.
#[inline(always)]
fn is_same(name: &[u8], other: &[u8]) -> bool
    ensures { result ≡ bytes_eq name.now other.now }
{
    let Some((first, following)) = name.split_first() else {
        return other.is_empty();
    };
    let Some((second, rest)) = other.split_first() else {
        return false;
    };
    *first == *second && following == rest
}

/// The value of a name in a map that has few.
#[inline(always)]
fn look_through<'a, V>(map: &'a NameMap<V>, name: &[u8]) -> Option<&'a V>
    ensures { option_copied result ≡ value_of_name map.now name.now }
{
    'names: for at in 0..map.len() {
        let (key, value) = map.get_index(at)?;
        if is_same(name, key.as_slice()) {
            return Some(value);
        }
    }
    None
}

/// The value of a name in a map that has many.
#[inline(never)]
fn look_up<'a, V>(map: &'a NameMap<V>, name: &[u8]) -> Option<&'a V>
    ensures { option_copied result ≡ value_of_name map.now name.now }
{
    map.get(name)
}

/// The value of a name.
#[inline(always)]
pub fn get_by_name<'a, V>(map: &'a NameMap<V>, name: &[u8]) -> Option<&'a V>
    ensures { option_copied result ≡ value_of_name map.now name.now }
{
    if map.len() <= FEW {
        return look_through(map, name);
    }
    look_up(map, name)
}
