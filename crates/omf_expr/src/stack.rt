//! Values that are pending while an expression is evaluated.

ghost use Rattle.std.specs.Prelude.{◌≡◌, ◌<◌, [], ◌∷◌, length};

use omf_format::Value;
use std::marker::Model;

/// At most 64 values. Contracts see them as a list, the last one first.
#[derive(Drop)]
pub struct Stack {
    values: [Value; 64],
    height: usize,
}

impl Model for Stack {
    ghost use Rattle.std.specs.Prelude.{◌≤◌, List, take, reverse};
    ghost use Rattle.omf_format.specs.declared.value.Value as value;

    ghost Value = { List value.Value };

    ghost view = { λ s. reverse (take s.height s.values) };

    ghost invariant = { λ s. s.height ≤ 64 };
}

impl Stack {
    pub fn new() -> Stack
        ensures { result ≡ [] }
    {
        Stack {
            values: [Value::Fixed(0); 64],
            height: 0,
        }
    }

    pub fn push(&mut self, value: Value)
        requires { length self.old < 64 }
        ensures { self.new ≡ value ∷ self.old }
    {
        self.values[self.height] = value;
        self.height += 1;
    }

    pub fn pop(&mut self) -> Value
        requires { 0 < length self.old }
        ensures { self.old ≡ result ∷ self.new }
    {
        self.height -= 1;
        self.values[self.height]
    }
}
