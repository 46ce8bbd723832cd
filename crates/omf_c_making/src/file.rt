//! Files, as C hands them over.

ghost use Rattle.std.specs.Prelude.{◌≡◌, ◌↔◌, length, map, nat_le, All, IfOk, IsTrue};
ghost use Rattle.std.specs.List.{list_all};
ghost use Rattle.lib_dict.specs.Made.{given_file};
ghost use Rattle.link_resolve.specs.Resolved.{all_bytes};
ghost use Rattle.link_resolve.specs.Runtimes.{files_of};
ghost use Rattle.omf_c_making.specs.Making.{contents, library_given, HasName, IsShort};

use lib_dict::Member;
use omf_base::Name;
use std::alloc::{AllocError, Global};

/// The bytes of a file.
#[repr(C)]
pub struct OmfBytes<'a> {
    pub bytes: &'a [u8],
}

/// A file under its name in a library, or under the path by which a run-time library file is known.
#[repr(C)]
pub struct OmfFile<'a> {
    pub name: &'a [u8],
    pub bytes: &'a [u8],
}

/// Copies of files.
pub fn copies(alloc: Global, files: &[OmfBytes<'_>]) -> Result<Vec<Vec<u8>>, AllocError>
    ensures { IfOk result (λ copies. all_bytes copies.items ≡ contents files.now) }
{
    let mut copies = Vec::new(alloc);
    'files: for file in files {
        copies.push(Vec::from_slice(alloc, file.bytes)?)?;
    }
    Ok(copies)
}

/// Whether each file has a name of at most 255 bytes, by a test of each.
fn all_named(files: &[OmfFile<'_>]) -> bool
    ensures { result ≡ list_all (λ f. nat_le (length f.name.now) 255) files.now }
{
    files.iter().all(|file| file.name.len() <= Name::MAX)
}

/// Whether each file has a name of at most 255 bytes.
pub fn have_names(files: &[OmfFile<'_>]) -> bool
    ensures { IsTrue result ↔ All HasName (library_given files.now) }
{
    all_named(files)
}

/// Whether each file has fewer than 2^32 bytes, by a test of each.
fn all_short(files: &[OmfFile<'_>]) -> bool
    ensures { result ≡ list_all (λ f. nat_le (length f.bytes.now) 0xFFFF_FFFF) files.now }
{
    files.iter().all(|file| file.bytes.len() <= 0xFFFF_FFFF)
}

/// Whether each file has fewer than 2^32 bytes.
pub fn are_short(files: &[OmfFile<'_>]) -> bool
    ensures { IsTrue result ↔ All IsShort (library_given files.now) }
{
    all_short(files)
}

/// Copies of files under their names.
pub fn members(alloc: Global, files: &[OmfFile<'_>]) -> Result<Vec<Member>, AllocError>
    requires { All HasName (library_given files.now) }
    ensures { IfOk result (λ members. map given_file members.items ≡ library_given files.now) }
{
    let mut members = Vec::new(alloc);
    'files: for file in files {
        let name = Name::from_vec(Vec::from_slice(alloc, file.name)?);
        let bytes = Vec::from_slice(alloc, file.bytes)?;
        members.push(Member { name, bytes })?;
    }
    Ok(members)
}
