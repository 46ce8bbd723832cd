//! `library FILE`: reads the dictionary of a library and counts its rows, for `bench/library`.

ghost use Rattle.std.specs.Prelude.{◌<◌, ◌^◌, length};

use lib_dict::read_dictionary;
use std::io;

/// Prints how many rows the dictionary has.
pub fn report_rows(rt: &HostRuntime, library: &[u8]) -> io::Result<()>
    requires { length library.now < 2 ^ 32 }
{
    match read_dictionary(rt.alloc(), library) {
        Ok(dictionary) => println!(rt; "rows {}", dictionary.count()),
        Err(fault) => println!(rt; "refused {fault:?}"),
    }
}
