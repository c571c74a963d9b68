ghost use Rattle.std.specs.Prelude.{◌≡◌, Some, IfSome};
ghost use Rattle.std.specs.Option.{option_map};
ghost use Rattle.replay_runs.specs.Commands as spec;
ghost use Rattle.replay_runs.specs.Commands.{command_of, journal_of};

use json_ptr::{capped_number, is_index};
use n32_values::{Text, TextList};

/// What the words of a call ask for.
#[derive(Clone, Copy, Debug, PartialEq, Eq, Drop)]
pub enum Command {
    /// `blocks`: each request's block under the empty policy.
    Blocks,
    /// `replay` or `replay FILE`: the events of a script, over the records that a keeper holds.
    Replay,
    /// `exercise N`: the script with so many messages, 1 to 10,000, over the records that a keeper holds, and its summary.
    Exercise(u32),
}

const MOST_MESSAGES: usize = 10_000;

// The command that a number of messages makes.
fn exercise_of(digits: &str) -> Option<Command>
    ensures { result ≡ spec.exercise_of digits.now }
{
    let digits = digits.as_bytes();
    if !is_index(digits) {
        return None;
    }
    let messages = capped_number(digits);
    if messages == 0 || messages > MOST_MESSAGES {
        return None;
    }
    Some(Command::Exercise(messages as u32))
}

// The command that two words are, if they are one.
fn command_over(word: &str, next: &str) -> Option<Command>
    ensures { result ≡ spec.command_over word.now next.now }
{
    if word == "replay" {
        if next.is_empty() {
            return None;
        }
        return Some(Command::Replay);
    }
    if word == "exercise" {
        return exercise_of(next);
    }
    None
}

/// The command that the words are, if they are one.
pub fn read_command(words: &TextList) -> Option<Command>
    ensures { result ≡ command_of words.now }
{
    match words.as_slice() {
        [word] if word.as_str() == "blocks" => Some(Command::Blocks),
        [word] if word.as_str() == "replay" => Some(Command::Replay),
        [word, next] => command_over(word.as_str(), next.as_str()),
        _ => None,
    }
}

/// The file that the words name for the records, if they name one. Only those of `replay` do.
pub fn journal_file(words: &TextList) -> Option<&Text>
    ensures file { option_map (λ t. t.now) result ≡ journal_of words.now }
    ensures replays { IfSome result (λ t. command_of words.now ≡ Some Command.Replay) }
{
    match words.as_slice() {
        [word, file] if word.as_str() == "replay" && !file.as_str().is_empty() => Some(file),
        _ => None,
    }
}
