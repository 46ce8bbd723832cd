//! What the names in an expression represent.

ghost use Rattle.std.specs.Prelude.{◌≡◌};
ghost use Rattle.omf_format.specs.Value.{Environment};

use omf_format::Value;

/// What names, the location counter and the segment's start represent. Each call gives the same answer every time: an implementation gives
/// them as one `Environment`, and the value of an expression is its value there.
pub trait Env {
    ghost meaning: { Self → Environment };

    /// What a name represents, or None where that isn't known. A name is weak where its term is $82.
    fn label(&self, name: &[u8], weak: bool) -> Option<Value>
        ensures answer { result ≡ (meaning self.now).label name.now weak };

    /// The length (term $84), type ($85) or count ($86) attribute of a name, or None where it isn't known.
    fn attribute(&self, term: u8, name: &[u8]) -> Option<u32>
        ensures answer { result ≡ (meaning self.now).attribute term name.now };

    /// The location counter.
    fn location(&self) -> Value
        ensures answer { result ≡ (meaning self.now).location };

    /// The start of the segment.
    fn start(&self) -> Value
        ensures answer { result ≡ (meaning self.now).start };
}
