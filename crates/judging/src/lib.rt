// Rows 1 to 6 of document 01's "Turned away", each over the whole line before the next: what is asked of an answer before its bytes are looked at.
#![tactic(auto)]

ghost use Rattle.std.specs.Prelude.{◌≡◌};
ghost use Rattle.judging.specs.Judge.{screen_of};
ghost use Rattle.judging.specs.Clean.{WordsSay, is_clean};

use questions::question::{Question, is_good, shape_of};
use readings::Refusal;
use scanning::{all_nibbles, first_no_character, first_no_nibble, is_framed};

// Rows 4 to 6. A nibble is a character: a line that is framed and has nibbles between needs no other look.
fn screen_words(line: &[u16]) -> Result<(), Refusal>
    ensures { WordsSay line.now result }
{
    if is_clean(line) {
        return Ok(());
    }
    screen_in_order(line)
}

fn is_clean(line: &[u16]) -> bool
    ensures { result ≡ is_clean line.now }
{
    if !is_framed(line) {
        return false;
    }
    all_nibbles(line)
}

// Rows 4 to 6 one after the other, each over the whole line before the next.
fn screen_in_order(line: &[u16]) -> Result<(), Refusal>
    ensures { WordsSay line.now result }
{
    let bad = first_no_character(line);
    if let Some(i) = bad {
        return Err(Refusal::Character(i));
    }
    if !is_framed(line) {
        return Err(Refusal::Frame);
    }
    let odd = first_no_nibble(line);
    if let Some(i) = odd {
        return Err(Refusal::Manchester(i));
    }
    Ok(())
}

// Rows 1 to 6, with room for so many values.
pub fn screen(q: Question, line: &[u16], room: usize) -> Result<(), Refusal>
    ensures { result ≡ screen_of q line.now room }
{
    if !is_good(q) {
        return Err(Refusal::Question);
    }
    let s = shape_of(q);
    let values = s.values;
    if room < values {
        return Err(Refusal::Room);
    }
    let words = s.words;
    if line.len() != words {
        return Err(Refusal::Length);
    }
    screen_words(line)
}
