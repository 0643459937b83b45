// The numbers that a program is called with.
ghost use Rattle.std.specs.Prelude.{◌≤◌};

use std::env::{Env, FillError};

// So many words the program is called with, its name among them.
pub fn count(env: &impl Env) -> usize {
    (0..usize::MAX)
        .find(|i| !is_word(env, *i))
        .unwrap_or(usize::MAX)
}

// `potmeander` has `has_word` beside it: two programs, and no crate of words below both.
fn is_word(env: &impl Env, i: usize) -> bool {
    !matches!(env.arg(i, &mut []), Err(FillError::NotPresent))
}

// Word i is that word.
pub fn reads(env: &impl Env, i: usize, word: &[u8]) -> bool {
    let mut text = [0u8; 20];
    match env.arg(i, &mut text) {
        Ok(count) => &text[..count] == word,
        Err(_) => false,
    }
}

// The words are asked for where they are, one by one, and nobody keeps a number beside them.

// Word i behind the program's name as a number: its decimal digits; 0 where there is no such word.
pub fn argument(env: &impl Env, i: usize) -> u64 {
    let mut text = [0u8; 20];
    match env.arg(i, &mut text) {
        Ok(count) => number_in(&text[..count]),
        Err(_) => 0,
    }
}

// Not `parse`: a glyph that is no digit counts as 0, and what is too long keeps its first digits.
fn number_in(text: &[u8]) -> u64 {
    text.iter().fold(0, |n, glyph| with_digit(n, *glyph))
}

// What nobody says stays as it is: no number is twenty digits long.
fn with_digit(n: u64, glyph: u8) -> u64 {
    if n < 1000000000000000000 {
        n * 10 + digit(glyph)
    } else {
        n
    }
}

fn digit(glyph: u8) -> u64
    ensures { result ≤ 9 }
{
    if glyph.is_ascii_digit() {
        u64::from(glyph - b'0')
    } else {
        0
    }
}
