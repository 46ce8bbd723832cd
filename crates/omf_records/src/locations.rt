//! The locations of a SUPER record (GS/OS Reference, appendix F, "SUPER").

ghost use Rattle.std.specs.Prelude.{◌≡◌, ◌⊎◌, ◌+◌, ◌*◌, ◌<◌, ◌≤◌, ◌^◌, ◌∷◌, [], List, length, Some, None, IfSome, IsNone};
ghost use Rattle.std.specs.List.{flat_map, AllByRecursion};
ghost use Rattle.omf_format.specs.Super.{Page, IsPage, page_text, HavePages, locations_from, locations_left};
ghost use Rattle.omf_records.specs.View.{first, bytes_after_first};

use std::marker::Model;

/// The locations of a SUPER's subrecords that are left, in order. Contracts see them as a list.
#[derive(Drop)]
pub struct Locations<'a> {
    left: &'a [u8],
    page: u64,
    lows: u32,
}

impl<'a> Model for Locations<'a> {
    ghost use Rattle.std.specs.Prelude.{◌+◌, ◌*◌, ◌<◌, ◌≤◌, ◌^◌, ℕ, List, length};
    ghost use Rattle.omf_format.specs.Super.{locations_left};

    ghost Value = { List ℕ };

    ghost view = { λ l. locations_left l.page l.lows l.left.now };

    ghost invariant = { λ l. (l.page + 128 * length l.left.now < 2 ^ 48) × (l.lows ≤ 128) };
}

impl<'a> Locations<'a> {
    /// The locations of these subrecords. A location is an offset in the segment, and may lie above 32 bits.
    pub fn of(bytes: &'a [u8]) -> Locations<'a>
        requires { length bytes.now < 2 ^ 32 }
        ensures pages { (pages : List Page) → AllByRecursion IsPage pages → bytes.now ≡ flat_map page_text pages
            → result ≡ locations_from 0 pages }

        // Of other bytes they are those found before the bytes end.
        ensures any { result ≡ locations_left 0 0 bytes.now }
    {
        Locations {
            left: bytes,
            page: 0,
            lows: 0,
        }
    }

    /// The next location, and None after the last.
    #[inline(always)]
    pub fn next(&mut self) -> Option<u64>
        ensures answer { result ≡ first self.old }
        ensures after { self.new ≡ bytes_after_first self.old }
    {
        if self.lows == 0 {
            let (page, lows, left) = next_page(self.left, self.page);
            self.left = left;
            self.page = page;
            self.lows = lows;
        }
        match self.left.split_first() {
            Some((low, left)) => {
                let location = self.page * 256 + u64::from(*low);
                self.left = left;
                self.lows -= 1;
                if self.lows == 0 {
                    self.page += 1;
                }
                Some(location)
            }
            None => None,
        }
    }
}

/// The next page that has locations, how many, and the bytes from their low bytes on. Where there is none, no bytes are left.
fn next_page(bytes: &[u8], page: u64) -> (u64, u32, &[u8])
    requires { page + 128 * length bytes.now < 2 ^ 48 }
    ensures same { locations_left result.0 result.1 result.2.now ≡ locations_left page 0 bytes.now }
    ensures some { (1 ≤ result.1) ⊎ (length result.2.now ≡ 0) }
    ensures most { result.1 ≤ 128 }
    ensures bound { result.0 + 128 * length result.2.now < 2 ^ 48 }
{
    let mut left = bytes;
    let mut page = page;
    'counts: while let Some((count, rest)) = left.split_first() {
        if *count < 0x80 {
            return (page, u32::from(*count) + 1, rest);
        }
        page += u64::from(*count - 0x80);
        left = rest;
    }
    (page, 0, left)
}
