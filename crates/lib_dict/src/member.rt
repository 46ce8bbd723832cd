//! A file that goes into a library.

use omf_base::Name;

/// A file of a library: the name by which the dictionary knows it, and its bytes.
#[derive(Drop)]
pub struct Member {
    pub name: Name,
    pub bytes: Vec<u8>,
}
