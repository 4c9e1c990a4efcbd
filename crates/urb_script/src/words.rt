//! The words of a line.

ghost use Rattle.std.specs.Prelude.{◌≡◌, ◌≢◌, ℕ, ◌^◌, ◌<◌, ◌≤◌, List, [], ◌∷◌, IfSome, IfNone};
ghost use Rattle.std.specs.Prelude.{IsTrue, position, ◌==◌, ◌↔◌};
ghost use Rattle.std.specs.Fmt.{decimal};
ghost use Rattle.urb_script.specs.Lines.{words_of};
ghost use Rattle.urb_script.specs.internal.LineReads.{words_left};
ghost use Rattle.urb_script.specs.ValueWords.{IsNodeNumber};

use urb_names::{MAX_NODES, NodeId};

/// The greatest number of a node, as a number of the type that is parsed from words.
pub const LAST_NODE: u64 = MAX_NODES as u64;

/// Parses a word as a number below 2^64: decimal digits without a sign and without a leading zero.
pub fn parse_number(word: &[u8]) -> Option<u64>
    ensures some { IfSome result (λ n. word.now ≡ decimal n) }
    ensures none { IfNone result ((n : ℕ) → n < 2 ^ 64 → word.now ≢ decimal n) }
{
    if word.is_empty() {
        return None;
    }
    let first = word[0];
    if first == b'+' {
        return None;
    }
    if first == b'0' {
        return if word.len() == 1 { Some(0) } else { None };
    }
    let Ok(text) = str::from_utf8(word) else {
        return None;
    };
    let Ok(number) = text.parse::<u64>() else {
        return None;
    };
    Some(number)
}

/// Parses a word as a number from `low` to `high`.
pub fn number_in(word: &[u8], low: u64, high: u64) -> Option<u64>
    ensures some { IfSome result (λ n. (word.now ≡ decimal n) × (low ≤ n) × (n ≤ high)) }
    ensures none { IfNone result ((n : ℕ) → low ≤ n → n ≤ high → word.now ≢ decimal n) }
{
    let number = parse_number(word)?;
    if number < low {
        return None;
    }
    if high < number {
        return None;
    }
    Some(number)
}

/// Returns the place of the first space.
fn find_space(text: &[u8]) -> Option<usize>
    ensures { result ≡ position (λ byte. byte == 32) text.now }
{
    text.iter().position(|byte| *byte == b' ')
}

/// Returns the first word of a text, and what follows its space.
pub fn first_word(text: &[u8]) -> (&[u8], Option<&[u8]>)
    ensures { words_of text.now ≡ result.0.now ∷ words_left result.1 }
{
    match find_space(text) {
        Some(at) => (&text[..at], Some(&text[at + 1..])),
        None => (text, None),
    }
}

/// Parses the next word as a number from `low` to `high`. Also returns what follows it.
pub fn number_word(rest: Option<&[u8]>, low: u64, high: u64) -> Option<(u64, Option<&[u8]>)>
    ensures some { IfSome result
        (λ r. (words_left rest.entry ≡ decimal r.0 ∷ words_left r.1) × (low ≤ r.0) × (r.0 ≤ high)) }
    ensures none { IfNone result ((n : ℕ) (words : List (List ℕ))
        → low ≤ n
        → n ≤ high
        → words_left rest.entry ≢ decimal n ∷ words) }
{
    let (word, rest) = first_word(rest?);
    let number = number_in(word, low, high)?;
    Some((number, rest))
}

/// Says whether a word is this text.
pub fn is_word(word: &[u8], text: &str) -> bool
    ensures { IsTrue result ↔ (word.now ≡ text.now) }
{
    word == text.as_bytes()
}

/// Returns the word, if it is the last one.
pub fn last_word(rest: Option<&[u8]>) -> Option<&[u8]>
    ensures some { IfSome result (λ word. words_left rest.entry ≡ word.now ∷ []) }
    ensures none { IfNone result ((word : List ℕ) → words_left rest.entry ≢ word ∷ []) }
{
    let (word, rest) = first_word(rest?);
    if rest.is_some() {
        return None;
    }
    Some(word)
}

/// Parses the last word as a node.
pub fn last_node(rest: Option<&[u8]>) -> Option<NodeId>
    ensures some { IfSome result
        (λ node. (words_left rest.entry ≡ decimal node ∷ []) × IsNodeNumber node) }
    ensures none { IfNone result
        ((node : ℕ) → IsNodeNumber node → words_left rest.entry ≢ decimal node ∷ []) }
{
    let (number, rest) = number_word(rest, 1, LAST_NODE)?;
    if rest.is_some() {
        return None;
    }
    let node = NodeId::new(number as u8).unwrap();
    Some(node)
}
