//! Whether files may be given to the linker.

ghost use Rattle.std.specs.Prelude.{◌≡◌, false, ◌+◌, ◌<◌, ◌≤◌, ℕ, List, map, length, MatchOption};
ghost use Rattle.std.specs.Bool.{OnTrue};
ghost use Rattle.std.specs.List.{AllByRecursion, list_all};
ghost use Rattle.load_meaning.specs.Pathnames.{IsPath, is_path_byte};
ghost use Rattle.link_meaning.specs.LinkFaults.{MayHave};
ghost use Rattle.link_resolve.specs.Runtimes.{files_of};
ghost use Rattle.link_resolve.specs.Resolved.{all_bytes, given_of, total_size, AreFew, FewGiven, HavePaths};

use lib_dict::Member;
use link_meaning::LinkForm;
use omf_base::Name;

/// The most files, and the most bytes that they have together.
const MOST: usize = 0xFFFF_FFFF;

/// How many bytes more there may be than those of the inputs; None where the inputs have too many.
fn room_after(inputs: &Vec<Vec<u8>>) -> Option<usize>
    ensures { MatchOption result (0xFFFFFFFF < total_size (all_bytes inputs.now.items)) (λ left. left + total_size (all_bytes inputs.now.items) ≡ 0xFFFFFFFF) }
{
    let mut left = MOST;
    'files: for file in inputs {
        if file.len() > left {
            return None;
        }
        left -= file.len();
    }
    Some(left)
}

/// There are fewer than 2^32 files, and they have fewer than 2^32 bytes together, as 255 files of 16,777,216 bytes have.
pub fn are_few(inputs: &Vec<Vec<u8>>) -> bool
    ensures few { OnTrue result (AreFew (all_bytes inputs.now.items)) }
    ensures many { result ≡ false → ¬ AreFew (all_bytes inputs.now.items) }
{
    match room_after(inputs) {
        Some(_) => inputs.len() <= MOST,
        None => false,
    }
}

/// Whether a path can have these bytes.
fn are_path_bytes(bytes: &[u8]) -> bool
    ensures { result ≡ list_all is_path_byte bytes.now }
{
    bytes.iter().all(|byte| *byte >= 0x21 && *byte <= 0x7E)
}

/// Whether a name is a path.
fn is_path(name: &Name) -> bool
    ensures path { OnTrue result (IsPath name.now) }
    ensures other { result ≡ false → ¬ IsPath name.now }
{
    let bytes = name.bytes();
    if bytes.is_empty() {
        return false;
    }
    are_path_bytes(bytes)
}

/// Whether each name is a path.
fn have_paths(runtimes: &Vec<Member>) -> bool
    ensures paths { OnTrue result (AllByRecursion (λ file. IsPath file.0) (files_of runtimes.now.items)) }
    ensures others { result ≡ false → ¬ AllByRecursion (λ file. IsPath file.0) (files_of runtimes.now.items) }
{
    'files: for member in runtimes {
        if !is_path(&member.name) {
            return false;
        }
    }
    true
}

/// Whether run-time library files have no more bytes together than these.
fn fit_in(runtimes: &Vec<Member>, room: usize) -> bool
    ensures fit { OnTrue result (total_size (map (λ file. file.1) (files_of runtimes.now.items)) ≤ room) }
    ensures over { result ≡ false → room < total_size (map (λ file. file.1) (files_of runtimes.now.items)) }
{
    let mut left = room;
    'files: for member in runtimes {
        let size = member.bytes.len();
        if size > left {
            return false;
        }
        left -= size;
    }
    true
}

/// The most run-time library files of what is linked in this form.
fn most_runtimes(form: LinkForm) -> usize
    ensures enough { (files : List (List ℕ × List ℕ)) → length files ≤ result → MayHave form files }
    ensures most { (files : List (List ℕ × List ℕ)) → MayHave form files → length files ≤ result }
    ensures few { result ≤ 16 }
{
    match form {
        LinkForm::Program => 16,
        LinkForm::Runtime => 0,
    }
}

/// Whether `resolve_with` may be called: there are fewer than 2^32 files, all of which have fewer than 2^32 bytes together, and a
/// program has 16 run-time library files at most, with paths of 1 to 255 bytes $21 to $7E; a run-time library file has none.
pub fn may_resolve(inputs: &Vec<Vec<u8>>, runtimes: &Vec<Member>, form: LinkForm) -> bool
    ensures few { OnTrue result (FewGiven (given_of inputs.now.items runtimes.now.items form)) }
    ensures paths { OnTrue result (HavePaths (given_of inputs.now.items runtimes.now.items form)) }
    ensures other { result ≡ false → FewGiven (given_of inputs.now.items runtimes.now.items form) → ¬ HavePaths (given_of inputs.now.items runtimes.now.items form) }
{
    let room = match room_after(inputs) {
        Some(room) => room,
        None => return false,
    };
    if runtimes.len() > most_runtimes(form) {
        return false;
    }
    if inputs.len() > MOST - runtimes.len() {
        return false;
    }
    if !have_paths(runtimes) {
        return false;
    }
    fit_in(runtimes, room)
}
