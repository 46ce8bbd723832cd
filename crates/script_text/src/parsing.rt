//! Words read as a command.

ghost use Rattle.std.specs.Prelude.{◌≡◌, ◌≢◌, ◌==◌, ◌&&◌, ◌<◌, false, ◌≤◌, ◌∷◌, [], true, length, IfOk, IfErr, IfSome, MatchOption, bytes_eq, codes};
ghost use Rattle.std.specs.List.{list_all, list_any};
ghost use Rattle.loader_machine.specs.Commands as machine;
ghost use Rattle.loader_machine.specs.Alloc.{is_attributes};
ghost use Rattle.loader_machine.specs.Script.{words_of, is_word, stands_twice, one_number, two_numbers, given_by, handle_of, words_command, command_named, is_number, number_of, line_command};
ghost use Rattle.loader_machine.specs.laws.Words.{command_of, banks_of, load_of, are_jsl_numbers, jsl_of, is_manner, shut_down_of, are_poke_numbers, poke_of, bytes_of, are_bytes_numbers, are_alloc_numbers, alloc_of, room_of, compact_of, is_in_turn};
ghost use Rattle.script_text.specs.Words.{bank_numbers, IsHandleIn};
ghost use Rattle.script_text.specs.View.{command, IsRead};

use crate::command::{BankList, Command};
use crate::numbers::number;
use crate::words::{Words, is_well_formed};
use iigs_meaning::Handle;
use loader_machine::{CommandName, ScriptCause};
use omf_base::{Name, NameFault};
use std::alloc::Global;

/// Whether the number is among the others.
fn is_among(number: u8, others: &[u8]) -> bool
    ensures { result ≡ list_any (λ other. number == other) others.now }
{
    others.iter().any(|other| number == *other)
}

/// Whether a number is in the list again.
#[tactic(auto, unfolding(loader_machine::specs::Script::stands_twice))]
fn stands_twice(numbers: &[u8]) -> bool
    ensures { result ≡ stands_twice numbers.now }
{
    let mut left = numbers;
    'numbers: while let Some((first, following)) = left.split_first() {
        if is_among(*first, following) {
            return true;
        }
        left = following;
    }
    false
}

/// The numbers of banks that the words write.
fn bank_numbers(alloc: Global, words: &mut Words) -> Result<Vec<u8>, ScriptCause>
    ensures { IsRead (λ banks. banks.items) result (bank_numbers words.old) }
{
    let mut banks = Vec::new(alloc);
    'words: while let Some(word) = words.next() {
        let Some(bank) = number(word, 0, 0xFF) else {
            return Err(ScriptCause::BadNumber);
        };
        banks.push(bank as u8)?;
    }
    Ok(banks)
}

/// `banks B B ..`
fn banks(alloc: Global, words: &mut Words) -> Result<Command, ScriptCause>
    ensures { IsRead command result (banks_of words.old) }
{
    let count = words.count();
    if count < 1 {
        return Err(ScriptCause::WrongCount);
    }
    if count > 256 {
        return Err(ScriptCause::WrongCount);
    }
    let banks = bank_numbers(alloc, words)?;
    if stands_twice(banks.as_slice()) {
        return Err(ScriptCause::BankTwice);
    }
    let list = BankList::new(banks);
    Ok(Command::Banks { list })
}

/// The one word that there is, or none where there are more or none.
fn one_word<'a>(words: &mut Words<'a>) -> Option<&'a [u8]>
    ensures { MatchOption result (length words.old ≢ 1) (λ word. words.old ≡ word.now ∷ []) }
{
    let word = words.next()?;
    match words.next() {
        Some(_) => None,
        None => Some(word),
    }
}

/// The path of a word.
fn path_of(alloc: Global, word: &[u8]) -> Result<Name, ScriptCause>
    requires { length word.now ≤ 255 }
    ensures ok { IfOk result (λ path. path ≡ word.now) }
    ensures err { IfErr result (λ cause. cause ≡ ScriptCause.Memory) }
{
    match Name::of(alloc, word) {
        Ok(path) => Ok(path),
        Err(NameFault::TooLong) => unreachable!(),
        Err(NameFault::Memory) => Err(ScriptCause::Memory),
    }
}

/// `load PATH`
#[tactic(auto, unfolding(loader_machine::specs::Script::is_word), using(crate::proofs::Counts::load_of_others))]
fn load(alloc: Global, words: &mut Words) -> Result<Command, ScriptCause>
    requires { list_all is_word words.old ≡ true }
    ensures { IsRead command result (load_of words.old) }
{
    let Some(word) = one_word(words) else {
        return Err(ScriptCause::WrongCount);
    };
    let path = path_of(alloc, word)?;
    Ok(Command::Load { path })
}

/// The four words that there are, or none where there are more or fewer.
fn four_words<'a>(words: &mut Words<'a>) -> Option<(&'a [u8], &'a [u8], &'a [u8], &'a [u8])>
    ensures { MatchOption result (length words.old ≢ 4) (λ four. words.old ≡ four.0.now ∷ four.1.now ∷ four.2.now ∷ four.3.now ∷ []) }
{
    let first = words.next()?;
    let second = words.next()?;
    let third = words.next()?;
    let fourth = words.next()?;
    match words.next() {
        Some(_) => None,
        None => Some((first, second, third, fourth)),
    }
}

/// The command `bytes` of these words.
fn bytes_command(user: &[u8], segment: &[u8], at: &[u8], size: &[u8]) -> Option<Command>
    ensures { MatchOption result (are_bytes_numbers user.now segment.now at.now size.now ≡ false) (λ found.
        (are_bytes_numbers user.now segment.now at.now size.now ≡ true)
        × (found ≡ Command.Bytes (number_of user.now) (number_of segment.now) (number_of at.now) (number_of size.now))) }
{
    let user = number(user, 0, 0xFFFF)? as u16;
    let segment = number(segment, 0, 0xFFFF)? as u16;
    let at = number(at, 0, 0xFFFF_FFFF)?;
    let length = number(size, 1, 0x100)?;
    Some(Command::Bytes {
        user,
        segment,
        at,
        length,
    })
}

/// `bytes U S OFF LEN`
#[tactic(auto, using(crate::proofs::Counts::bytes_of_others))]
fn bytes(words: &mut Words) -> Result<Command, ScriptCause>
    ensures { IsRead command result (bytes_of words.old) }
{
    let Some((user, segment, at, size)) = four_words(words) else {
        return Err(ScriptCause::WrongCount);
    };
    match bytes_command(user, segment, at, size) {
        Some(found) => Ok(found),
        None => Err(ScriptCause::BadNumber),
    }
}

/// The command `poke` of these words.
fn poke_command(user: &[u8], segment: &[u8], at: &[u8], byte: &[u8]) -> Option<Command>
    ensures { MatchOption result (are_poke_numbers user.now segment.now at.now byte.now ≡ false) (λ found.
        (are_poke_numbers user.now segment.now at.now byte.now ≡ true)
        × (found ≡ Command.Poke (number_of user.now) (number_of segment.now) (number_of at.now) (number_of byte.now))) }
{
    let user = number(user, 0, 0xFFFF)? as u16;
    let segment = number(segment, 0, 0xFFFF)? as u16;
    let at = number(at, 0, 0xFFFF_FFFF)?;
    let byte = number(byte, 0, 0xFF)? as u8;
    Some(Command::Poke {
        user,
        segment,
        at,
        byte,
    })
}

/// `poke U S OFF BYTE`
#[tactic(auto, using(crate::proofs::Counts::poke_of_others))]
fn poke(words: &mut Words) -> Result<Command, ScriptCause>
    ensures { IsRead command result (poke_of words.old) }
{
    let Some((user, segment, at, byte)) = four_words(words) else {
        return Err(ScriptCause::WrongCount);
    };
    match poke_command(user, segment, at, byte) {
        Some(found) => Ok(found),
        None => Err(ScriptCause::BadNumber),
    }
}

/// The two words that there are, or none where there are more or fewer.
fn two_words<'a>(words: &mut Words<'a>) -> Option<(&'a [u8], &'a [u8])>
    ensures { MatchOption result (length words.old ≢ 2) (λ two. words.old ≡ two.0.now ∷ two.1.now ∷ []) }
{
    let first = words.next()?;
    let second = words.next()?;
    match words.next() {
        Some(_) => None,
        None => Some((first, second)),
    }
}

/// The three words that there are, or none where there are more or fewer.
fn three_words<'a>(words: &mut Words<'a>) -> Option<(&'a [u8], &'a [u8], &'a [u8])>
    ensures { MatchOption result (length words.old ≢ 3) (λ three. words.old ≡ three.0.now ∷ three.1.now ∷ three.2.now ∷ []) }
{
    let first = words.next()?;
    let second = words.next()?;
    let third = words.next()?;
    match words.next() {
        Some(_) => None,
        None => Some((first, second, third)),
    }
}

/// The one number of a command, up to a bound.
#[tactic(auto, unfolding(loader_machine::specs::Script::one_number), using(crate::proofs::Counts::one_number_others))]
fn one_number(words: &mut Words, most: u32) -> Result<u32, ScriptCause>
    ensures is { result ≡ one_number most words.old }
    ensures within { IfOk result (λ n. n ≤ most) }
{
    let Some(word) = one_word(words) else {
        return Err(ScriptCause::WrongCount);
    };
    match number(word, 0, most) {
        Some(n) => Ok(n),
        None => Err(ScriptCause::BadNumber),
    }
}

/// Two numbers, up to a bound each.
fn both_numbers(word: &[u8], most: u32, second: &[u8], other: u32) -> Option<(u32, u32)>
    ensures is { MatchOption result ((is_number 0 most word.now && is_number 0 other second.now) ≡ false) (λ two.
        ((is_number 0 most word.now && is_number 0 other second.now) ≡ true) × (two.0 ≡ number_of word.now) × (two.1 ≡ number_of second.now)) }
    ensures within { IfSome result (λ two. (two.0 ≤ most) × (two.1 ≤ other)) }
{
    let first = number(word, 0, most)?;
    let last = number(second, 0, other)?;
    Some((first, last))
}

/// The two numbers of a command, up to a bound each.
#[tactic(auto, unfolding(loader_machine::specs::Script::two_numbers), using(crate::proofs::Counts::two_numbers_others))]
fn two_numbers(words: &mut Words, most: u32, other: u32) -> Result<(u32, u32), ScriptCause>
    ensures is { result ≡ two_numbers most other words.old }
    ensures within { IfOk result (λ two. (two.0 ≤ most) × (two.1 ≤ other)) }
{
    let Some((word, second)) = two_words(words) else {
        return Err(ScriptCause::WrongCount);
    };
    match both_numbers(word, most, second, other) {
        Some(two) => Ok(two),
        None => Err(ScriptCause::BadNumber),
    }
}

/// Whether only known bits of ATTR are set.
fn is_attributes(attr: u16) -> bool
    ensures { result ≡ is_attributes attr }
{
    attr & 0x3CE0 == 0
}

/// The attributes that a word writes.
fn attributes(word: &[u8]) -> Option<u16>
    ensures { MatchOption result ((is_number 0 0xFFFF word.now && is_attributes (number_of word.now)) ≡ false) (λ attr.
        ((is_number 0 0xFFFF word.now && is_attributes (number_of word.now)) ≡ true) × (attr ≡ number_of word.now)) }
{
    let attr = number(word, 0, 0xFFFF)? as u16;
    if is_attributes(attr) {
        Some(attr)
    } else {
        None
    }
}

/// The command `alloc` of these words.
fn alloc_command(size: &[u8], attr: &[u8], address: &[u8]) -> Option<Command>
    ensures { MatchOption result (are_alloc_numbers size.now attr.now address.now ≡ false) (λ found.
        (are_alloc_numbers size.now attr.now address.now ≡ true)
        × (found ≡ Command.Alloc (number_of size.now) (number_of attr.now) (number_of address.now))) }
{
    let size = number(size, 1, 0x100_0000)?;
    let attr = attributes(attr)?;
    let address = number(address, 0, 0xFF_FFFF)?;
    Some(Command::Alloc {
        size,
        attr,
        address,
    })
}

/// `alloc SIZE ATTR ADDR`
#[tactic(auto, using(crate::proofs::Counts::alloc_of_others))]
fn alloc_block(words: &mut Words) -> Result<Command, ScriptCause>
    ensures { IsRead command result (alloc_of words.old) }
{
    let Some((size, attr, address)) = three_words(words) else {
        return Err(ScriptCause::WrongCount);
    };
    match alloc_command(size, attr, address) {
        Some(found) => Ok(found),
        None => Err(ScriptCause::BadNumber),
    }
}

/// `where ADDR`
fn where_(words: &mut Words) -> Result<Command, ScriptCause>
    ensures { IsRead command result (given_by machine.Where (one_number 0xFFFFFF words.old)) }
{
    let address = one_number(words, 0xFF_FFFF)?;
    Ok(Command::Where { address })
}

/// `info U S`
fn info(words: &mut Words) -> Result<Command, ScriptCause>
    ensures { IsRead command result (given_by (λ n. machine.Info n.0 n.1) (two_numbers 0xFFFF 0xFFFF words.old)) }
{
    let (user, segment) = two_numbers(words, 0xFFFF, 0xFFFF)?;
    Ok(Command::Info {
        user: user as u16,
        segment: segment as u16,
    })
}

/// `loadseg U S`
fn load_segment(words: &mut Words) -> Result<Command, ScriptCause>
    ensures { IsRead command result (given_by (λ n. machine.LoadSegment n.0 n.1) (two_numbers 0xFFFF 0xFFFF words.old)) }
{
    let (user, segment) = two_numbers(words, 0xFFFF, 0xFFFF)?;
    Ok(Command::LoadSegment {
        user: user as u16,
        segment: segment as u16,
    })
}

/// The command `jsl` of these words.
fn jsl_command(user: &[u8], segment: &[u8], at: &[u8]) -> Option<Command>
    ensures { MatchOption result (are_jsl_numbers user.now segment.now at.now ≡ false) (λ found.
        (are_jsl_numbers user.now segment.now at.now ≡ true)
        × (found ≡ Command.Jsl (number_of user.now) (number_of segment.now) (number_of at.now))) }
{
    let user = number(user, 0, 0xFFFF)? as u16;
    let segment = number(segment, 0, 0xFFFF)? as u16;
    let at = number(at, 0, 0xFFFF_FFFF)?;
    Some(Command::Jsl { user, segment, at })
}

/// `jsl U S OFF`
#[tactic(auto, using(crate::proofs::Counts::jsl_of_others))]
fn jsl(words: &mut Words) -> Result<Command, ScriptCause>
    ensures { IsRead command result (jsl_of words.old) }
{
    let Some((user, segment, at)) = three_words(words) else {
        return Err(ScriptCause::WrongCount);
    };
    match jsl_command(user, segment, at) {
        Some(found) => Ok(found),
        None => Err(ScriptCause::BadNumber),
    }
}

/// `restart U`
fn restart(words: &mut Words) -> Result<Command, ScriptCause>
    ensures { IsRead command result (given_by machine.Restart (one_number 0xFFFF words.old)) }
{
    let user = one_number(words, 0xFFFF)?;
    Ok(Command::Restart { user: user as u16 })
}

/// `unloadseg U S`
fn unload_segment(words: &mut Words) -> Result<Command, ScriptCause>
    ensures { IsRead command result (given_by (λ n. machine.UnloadSegment n.0 n.1) (two_numbers 0xFFFF 0xFFFF words.old)) }
{
    let (user, segment) = two_numbers(words, 0xFFFF, 0xFFFF)?;
    Ok(Command::UnloadSegment {
        user: user as u16,
        segment: segment as u16,
    })
}

/// `purge U`
fn purge(words: &mut Words) -> Result<Command, ScriptCause>
    ensures { IsRead command result (given_by machine.Purge (one_number 0xFFFF words.old)) }
{
    let user = one_number(words, 0xFFFF)?;
    Ok(Command::Purge { user: user as u16 })
}

/// Whether a word keeps a program, or drops it.
fn manner(word: &[u8]) -> Option<bool>
    ensures { MatchOption result (is_manner word.now ≡ false) (λ keep. (is_manner word.now ≡ true) × (keep ≡ bytes_eq word.now (codes "keep"))) }
{
    if is_name(word, "keep") {
        return Some(true);
    }
    if is_name(word, "drop") {
        return Some(false);
    }
    None
}

/// The command `shutdown` of these words.
fn shut_down_command(user: &[u8], word: &[u8]) -> Option<Command>
    ensures { MatchOption result ((is_number 0 0xFFFF user.now && is_manner word.now) ≡ false) (λ found.
        ((is_number 0 0xFFFF user.now && is_manner word.now) ≡ true)
        × (found ≡ Command.ShutDown (number_of user.now) (bytes_eq word.now (codes "keep")))) }
{
    let user = number(user, 0, 0xFFFF)? as u16;
    let keep = manner(word)?;
    Some(Command::ShutDown { user, keep })
}

/// `shutdown U keep` and `shutdown U drop`
#[tactic(auto, using(crate::proofs::Counts::shut_down_of_others))]
fn shut_down(words: &mut Words) -> Result<Command, ScriptCause>
    ensures { IsRead command result (shut_down_of words.old) }
{
    let Some((user, word)) = two_words(words) else {
        return Err(ScriptCause::WrongCount);
    };
    match shut_down_command(user, word) {
        Some(found) => Ok(found),
        None => Err(ScriptCause::BadNumber),
    }
}

/// The handle that six digits write.
fn handle_of(n: u32) -> Handle
    requires { n ≤ 0xFFFFFF }
    ensures { result ≡ handle_of n }
{
    Handle {
        slot: (n / 0x100) as u16,
        generation: (n % 0x100) as u8,
    }
}

/// The one handle of a command.
fn handle(words: &mut Words) -> Result<Handle, ScriptCause>
    ensures { IsHandleIn result (one_number 0xFFFFFF words.old) }
{
    let n = one_number(words, 0xFF_FFFF)?;
    Ok(handle_of(n))
}

/// `level H N`
fn level(words: &mut Words) -> Result<Command, ScriptCause>
    ensures { IsRead command result (given_by (λ n. machine.Level (handle_of n.0) n.1) (two_numbers 0xFFFFFF 3 words.old)) }
{
    let (n, level) = two_numbers(words, 0xFF_FFFF, 3)?;
    Ok(Command::Level {
        handle: handle_of(n),
        level: level as u8,
    })
}

/// `free H`
fn free(words: &mut Words) -> Result<Command, ScriptCause>
    ensures { IsRead command result (given_by (λ n. machine.Free (handle_of n)) (one_number 0xFFFFFF words.old)) }
{
    let handle = handle(words)?;
    Ok(Command::Free { handle })
}

/// `lock H`
fn lock(words: &mut Words) -> Result<Command, ScriptCause>
    ensures { IsRead command result (given_by (λ n. machine.Lock (handle_of n)) (one_number 0xFFFFFF words.old)) }
{
    let handle = handle(words)?;
    Ok(Command::Lock { handle })
}

/// `unlock H`
fn unlock(words: &mut Words) -> Result<Command, ScriptCause>
    ensures { IsRead command result (given_by (λ n. machine.Unlock (handle_of n)) (one_number 0xFFFFFF words.old)) }
{
    let handle = handle(words)?;
    Ok(Command::Unlock { handle })
}

/// `handle H`
fn state(words: &mut Words) -> Result<Command, ScriptCause>
    ensures { IsRead command result (given_by (λ n. machine.StateOf (handle_of n)) (one_number 0xFFFFFF words.old)) }
{
    let handle = handle(words)?;
    Ok(Command::Handle { handle })
}

/// `room`
fn room(words: &mut Words) -> Result<Command, ScriptCause>
    ensures { IsRead command result (room_of words.old) }
{
    match words.next() {
        Some(_) => Err(ScriptCause::WrongCount),
        None => Ok(Command::Room),
    }
}

/// `compact`
fn compact(words: &mut Words) -> Result<Command, ScriptCause>
    ensures { IsRead command result (compact_of words.old) }
{
    match words.next() {
        Some(_) => Err(ScriptCause::WrongCount),
        None => Ok(Command::Compact),
    }
}

/// The command that the words after its name give.
#[tactic(auto, unfolding(loader_machine::specs::Script::words_command))]
fn words_command(
    alloc: Global,
    name: CommandName,
    words: &mut Words,
) -> Result<Command, ScriptCause>
    requires { list_all is_word words.old ≡ true }
    ensures { IsRead command result (words_command name words.old) }
{
    match name {
        CommandName::Banks => banks(alloc, words),
        CommandName::Load => load(alloc, words),
        CommandName::LoadSegment => load_segment(words),
        CommandName::UnloadSegment => unload_segment(words),
        CommandName::Jsl => jsl(words),
        CommandName::ShutDown => shut_down(words),
        CommandName::Restart => restart(words),
        CommandName::Purge => purge(words),
        CommandName::Poke => poke(words),
        CommandName::Bytes => bytes(words),
        CommandName::Where => where_(words),
        CommandName::Info => info(words),
        CommandName::Alloc => alloc_block(words),
        CommandName::Free => free(words),
        CommandName::Lock => lock(words),
        CommandName::Unlock => unlock(words),
        CommandName::Level => level(words),
        CommandName::Handle => state(words),
        CommandName::Room => room(words),
        CommandName::Compact => compact(words),
    }
}

/// Whether the word is this name of a command.
fn is_name(word: &[u8], name: &str) -> bool
    ensures { result ≡ bytes_eq word.now name.now }
{
    word == name.as_bytes()
}

/// The command that a word names.
#[tactic(auto, unfolding(loader_machine::specs::Script::command_named))]
fn command_by_name(word: &[u8]) -> Option<CommandName>
    ensures { result ≡ command_named word.now }
{
    if is_name(word, "banks") {
        return Some(CommandName::Banks);
    }
    if is_name(word, "load") {
        return Some(CommandName::Load);
    }
    if is_name(word, "loadseg") {
        return Some(CommandName::LoadSegment);
    }
    if is_name(word, "unloadseg") {
        return Some(CommandName::UnloadSegment);
    }
    if is_name(word, "jsl") {
        return Some(CommandName::Jsl);
    }
    if is_name(word, "shutdown") {
        return Some(CommandName::ShutDown);
    }
    if is_name(word, "restart") {
        return Some(CommandName::Restart);
    }
    if is_name(word, "purge") {
        return Some(CommandName::Purge);
    }
    if is_name(word, "poke") {
        return Some(CommandName::Poke);
    }
    if is_name(word, "bytes") {
        return Some(CommandName::Bytes);
    }
    if is_name(word, "where") {
        return Some(CommandName::Where);
    }
    if is_name(word, "info") {
        return Some(CommandName::Info);
    }
    if is_name(word, "alloc") {
        return Some(CommandName::Alloc);
    }
    if is_name(word, "free") {
        return Some(CommandName::Free);
    }
    if is_name(word, "lock") {
        return Some(CommandName::Lock);
    }
    if is_name(word, "unlock") {
        return Some(CommandName::Unlock);
    }
    if is_name(word, "level") {
        return Some(CommandName::Level);
    }
    if is_name(word, "handle") {
        return Some(CommandName::Handle);
    }
    if is_name(word, "room") {
        return Some(CommandName::Room);
    }
    if is_name(word, "compact") {
        return Some(CommandName::Compact);
    }
    None
}

/// Whether the command may be where it is: `banks` is the first one and no later one.
fn is_in_turn(name: CommandName, is_first: bool) -> bool
    ensures { result ≡ is_in_turn name is_first }
{
    match name {
        CommandName::Banks => is_first,
        _ => !is_first,
    }
}

/// The command that the words of a line give, where it is the first one of a script or isn't.
fn command_of(alloc: Global, line: &[u8], is_first: bool) -> Result<Command, ScriptCause>
    requires { list_all is_word (words_of line.now) ≡ true }
    ensures { IsRead command result (command_of is_first (words_of line.now)) }
{
    let mut words = Words::of(line);
    let Some(word) = words.next() else {
        return Err(ScriptCause::UnknownCommand);
    };
    let Some(name) = command_by_name(word) else {
        return Err(ScriptCause::UnknownCommand);
    };
    if !is_in_turn(name, is_first) {
        return Err(ScriptCause::BanksFirst);
    }
    words_command(alloc, name, &mut words)
}

/// The command of a line that isn't skipped.
#[tactic(auto, unfolding(loader_machine::specs::Script::line_command))]
pub(crate) fn line_command(
    alloc: Global,
    line: &[u8],
    is_first: bool,
) -> Result<Command, ScriptCause>
    ensures { IsRead command result (line_command is_first line.now) }
{
    if !is_well_formed(line) {
        return Err(ScriptCause::BadWord);
    }
    command_of(alloc, line, is_first)
}
