//! Lines that are events of the clock, the disk or the server.
ghost use Rattle.std.specs.Prelude.{◌≡◌, ◌≤◌, ℕ, Bool, List, ◌++◌, codes, MatchOption};
ghost use Rattle.moo_cli_script.specs.ScriptLines.{Step, failing, Argues, Asks, IsNumber, most_count, step};
ghost use Rattle.moo_cli_script.specs.Kinds.{IsOfConnection};

use crate::number::{following, is_same, number, number_after};
use crate::script_line::ScriptLine;

/// Parses a line that is no event of a connection. Returns `None` if it has no such form.
pub fn read_disk_line(line: &[u8]) -> Option<ScriptLine<'static>>
    ensures { MatchOption result ((s : Step) → (¬ IsOfConnection s) → ¬ Asks line.now s) (λ asked. Asks line.now (step asked)) }
{
    if is_same(line, b"flush") {
        return Some(ScriptLine::Flush);
    }
    if is_same(line, b"reopen") {
        return Some(ScriptLine::Reopen);
    }
    if is_same(line, b"show") {
        return Some(ScriptLine::Show);
    }
    if let Some(moment) = number_after(line, b"moment ", u32::MAX as u64) {
        return Some(ScriptLine::Moment(moment as u32));
    }
    if let Some(image) = number_after(line, b"crash ", u64::MAX) {
        return Some(ScriptLine::Crash(image as usize));
    }
    match failure(line) {
        Some((call, has_effect)) => Some(ScriptLine::Fail(call, has_effect)),
        None => None,
    }
}

// Returns the number of the call that fails, and whether it has its effect.
fn failure(line: &[u8]) -> Option<(u64, bool)>
    ensures { MatchOption result ((k : ℕ) (effect : Bool) (rest : List ℕ) → line.now ≡ codes "fail " ++ rest → ¬ Argues (failing k effect) rest) (λ found. (rest : List ℕ) × (line.now ≡ codes "fail " ++ rest) × Argues (failing found.0 found.1) rest) }
{
    let Some(argument) = following(line, b"fail ") else {
        return None;
    };
    if let Some(call) = counted(argument) {
        return Some((call, false));
    }
    let Some(digits) = before(argument, b" done") else {
        return None;
    };
    match counted(digits) {
        Some(call) => Some((call, true)),
        None => None,
    }
}

// Parses a number from 1 on.
fn counted(digits: &[u8]) -> Option<u64>
    ensures { MatchOption result ((n : ℕ) → IsNumber most_count digits.now n → ¬ (1 ≤ n)) (λ n. IsNumber most_count digits.now n × (1 ≤ n)) }
{
    match number(digits, u64::MAX) {
        Some(number) if number > 0 => Some(number),
        _ => None,
    }
}

// Returns the part of a line before a word that ends it.
fn before<'a>(line: &'a [u8], word: &[u8]) -> Option<&'a [u8]>
    ensures { MatchOption result ((front : List ℕ) → ¬ (line.now ≡ front ++ word.now)) (λ front. line.now ≡ front.now ++ word.now) }
{
    if line.len() < word.len() {
        return None;
    }
    let (front, end) = line.split_at(line.len() - word.len());
    if is_same(end, word) {
        return Some(front);
    }
    None
}
