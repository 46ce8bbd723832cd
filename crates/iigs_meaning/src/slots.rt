//! Slots: the places of a table of handles.

/// What a slot holds.
#[derive(Drop)]
pub enum SlotContent<T> {
    /// Nothing: the next handles may take the slot.
    Free,
    /// The value of a live handle.
    Used(T),
    /// Nothing, and nothing again: the slot was released under its last generation.
    Retired,
}

/// A place of a table of handles.
#[derive(Drop)]
pub struct Slot<T> {
    /// How often the slot was released; a retired slot keeps 255.
    pub generation: u8,
    /// What the slot holds.
    pub content: SlotContent<T>,
}
