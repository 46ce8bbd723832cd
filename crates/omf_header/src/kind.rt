//! KIND: a segment's type and attributes.

ghost use Rattle.std.specs.Prelude.{◌≡◌, not};
ghost use Rattle.omf_format.specs.Header.{form_of, is_bank_relative, is_skipped, is_reload, is_absolute_bank, avoids_special, is_private, is_dynamic};

/// A segment's KIND. Bits 0 to 4 are its type, and bits 8 to 15 its attributes; bits 5 to 7 say nothing.
#[derive(Clone, Copy, Debug, PartialEq, Eq)]
pub struct Kind {
    pub bits: u16,
}

impl Kind {
    /// The type: $00 code, $01 data, $02 jump table, $04 pathname, $08 library dictionary, $10 initialization,
    /// $12 direct page and stack.
    pub fn form(self) -> u8
        ensures { result ≡ form_of self.bits }
    {
        (self.bits % 32) as u8
    }

    /// $8000: the segment is loaded when it is first called.
    pub fn is_dynamic(self) -> bool
        ensures { result ≡ is_dynamic self.bits }
    {
        self.bits & 0x8000 != 0
    }

    /// $4000: its names are seen in its own file alone.
    pub fn is_private(self) -> bool
        ensures { result ≡ is_private self.bits }
    {
        self.bits & 0x4000 != 0
    }

    /// $1000: it may not lie in special memory.
    pub fn avoids_special(self) -> bool
        ensures { result ≡ avoids_special self.bits }
    {
        self.bits & 0x1000 != 0
    }

    /// $0800: ORG names the bank in which it has to lie.
    pub fn is_absolute_bank(self) -> bool
        ensures { result ≡ is_absolute_bank self.bits }
    {
        self.bits & 0x0800 != 0
    }

    /// $0400: it is read again at each restart.
    pub fn is_reload(self) -> bool
        ensures { result ≡ is_reload self.bits }
    {
        self.bits & 0x0400 != 0
    }

    /// $0200: it is never loaded.
    pub fn is_skip(self) -> bool
        ensures { result ≡ is_skipped self.bits }
    {
        self.bits & 0x0200 != 0
    }

    /// $0100: ORG is an address within the bank.
    pub fn is_bank_relative(self) -> bool
        ensures { result ≡ is_bank_relative self.bits }
    {
        self.bits & 0x0100 != 0
    }

    /// It isn't dynamic, and is loaded with its file.
    pub fn is_static(self) -> bool
        ensures { result ≡ not (is_dynamic self.bits) }
    {
        !self.is_dynamic()
    }
}
