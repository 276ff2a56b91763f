// Whether lent words and a count are a stack, for any words and any count.
// The helpers assume room for what they read; `is_stack` assumes nothing.
ghost use Rattle.std.specs.Prelude.{◌≡◌, ℕ, ◌+◌, ◌<◌, ◌≤◌, length};
ghost use Rattle.stack.specs.Stack.{room, order_at};
ghost use Rattle.stack.specs.Valid.{is_fresh, is_named, is_ordered, is_held, valid_stack};

use crate::order::{key_at, room_of, slot_at, sorted_of};

// Whether no number of the table before i is number i.
fn is_fresh(words: &[u32], i: usize) -> bool
    requires { i + 2 < length words.now }
    ensures { result ≡ is_fresh words.now i }
{
    !words[2..2 + i].contains(&words[2 + i])
}

// Whether the first h numbers of the table are those below h, each once.
fn is_named(words: &[u32], h: u32) -> bool
    requires { h + 2 ≤ length words.now }
    ensures { result ≡ is_named words.now h }
{
    for i in 0..h as usize {
        if h <= words[2 + i] || !is_fresh(words, i) {
            return false;
        }
    }
    true
}

// Whether the first n states are in order of place.
fn is_ordered(words: &[u32], n: usize) -> bool
    requires { (n ≤ room (length words.now)) × ((i : ℕ) → i < n → order_at words.now i < room (length words.now)) }
    ensures { result ≡ is_ordered words.now n }
{
    for i in 1..n {
        if key_at(words, i) < key_at(words, i - 1) {
            return false;
        }
    }
    true
}

// Whether each of the first n slots of the table holds words that some state at some place writes.
fn is_held(words: &[u32], n: usize) -> bool
    requires { (n ≤ room (length words.now)) × ((i : ℕ) → i < n → order_at words.now i < room (length words.now)) }
    ensures { result ≡ is_held words.now n }
{
    for i in 0..n {
        if !slot::is_slot(words, slot_at(words, words[2 + i])) {
            return false;
        }
    }
    true
}

// Whether words and count are ones that pushing and popping leave; 12 is answered where they are not.
pub fn is_stack(words: &[u32], count: usize) -> bool
    ensures { result ≡ valid_stack words.now count }
{
    if count == 0 {
        return true;
    }
    let room = room_of(words.len());
    if room < count {
        return false;
    }
    let high = words[0];
    if (high as usize) < count {
        return false;
    }
    if room < (high as usize) {
        return false;
    }
    if high < words[1] {
        return false;
    }
    if !is_named(words, high) {
        return false;
    }
    is_ordered(words, sorted_of(words, count)) && is_held(words, count)
}
