//! Laws of entries.

ghost use Rattle.load_meaning.specs.Table.{OneEntryAtMost, WrittenIsRead};

/// At a displacement there is one entry at most, and where an entry's bytes are written there is that entry. The function does nothing; its
/// contract is the law.
pub fn entries_are_read_in_one_way()
    ensures once { OneEntryAtMost }
    ensures written { WrittenIsRead }
{}
