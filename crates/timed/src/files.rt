//! The files that the tasks read.

ghost use Rattle.std.specs.Prelude.{◌<◌, ◌^◌, length, IfSome};

use omf_io::{Files, HostFiles};

/// The bytes of the file at a path, where it can be read.
pub fn read(rt: &HostRuntime, path: &str) -> Option<Vec<u8>>
    ensures { IfSome result (λ bytes. length bytes.items < 2 ^ 32) }
{
    let mut files = HostFiles::new(rt);
    match files.read(rt.alloc(), path) {
        Ok(bytes) => Some(bytes),
        Err(_) => None,
    }
}

/// All files, or the path of the first that can't be read.
pub fn read_all<'w>(rt: &HostRuntime, paths: &'w [String]) -> Result<Vec<Vec<u8>>, &'w str> {
    let mut all = Vec::new(rt.alloc());
    for path in paths {
        let path = path.as_str();
        let Some(bytes) = read(rt, path) else {
            return Err(path);
        };
        if all.push(bytes).is_err() {
            return Err(path);
        }
    }
    Ok(all)
}
