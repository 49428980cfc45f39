// The first rule that fails on the words of a command line.
ghost use Rattle.std.specs.Prelude.{◌≡◌, ◌+◌, ◌<◌, length, option_map, position, IfSome};
ghost use Rattle.service_model.specs.Search.{first_of, first_below};
ghost use Rattle.command_words.specs.Commands.{required_keys};
ghost use Rattle.command_words.specs.Words.{texts, is_missing};
ghost use Rattle.command_words.specs.WordRules.{fails_if, later_rules, later_fault_at, missing_fault, reuse_fault, word_fault};

use crate::command::{Command, Key, command_named, key_text, required_keys, written_file};
use crate::word_rules::{
    BAD_VALUE, KEY_TWICE, MISSING_KEY, NAME_REUSED, NO_COMMAND, NO_EQUALS, NO_WORD, UNKNOWN_KEY,
};
use crate::word_tests::{has_equals, has_key, is_bad_value, is_reused, is_unknown, key_in};

/// A rule that fails, by its number in `word_rules`, with the word's number from 1 on; 0 where no word is at fault.
/// A missing key has its place in the command's list instead.
#[derive(Clone, Copy, Debug, PartialEq, Eq)]
pub struct WordFault {
    pub rule: u8,
    pub place: u64,
}

/// The first rule that fails on words.
#[tactic(auto, unfolding(crate::specs::WordRules::word_fault))]
pub fn word_fault(words: &[String]) -> Option<WordFault>
    ensures { result ≡ word_fault (texts words.now) }
{
    let [first, later @ ..] = words else {
        return fault_at(0, NO_WORD);
    };
    let Some(command) = command_named(first.as_str()) else {
        return fault_at(1, NO_COMMAND);
    };
    later_fault(command, later)
        .or_else(|| missing_fault(command, later))
        .or_else(|| reuse_fault(command, later))
}

fn fault_at(place: u64, rule: u8) -> Option<WordFault>
    ensures { result ≡ Some (record { rule = rule; place = place }) }
{
    Some(WordFault { rule, place })
}

// The first rule that fails on a word behind the command.
fn later_fault(command: Command, later: &[String]) -> Option<WordFault>
    ensures { result ≡ first_below (later_fault_at command (texts later.now)) (length (texts later.now)) }
{
    'words: for k in 0..later.len() {
        if let Some(rule) = later_rule(command, &later[..k], later[k].as_str()) {
            return fault_at(k as u64 + 2, rule);
        }
    }
    None
}

// The first rule that fails on a word, given the words between the command and it.
fn later_rule(command: Command, earlier: &[String], word: &str) -> Option<u8>
    ensures { result ≡ first_of (later_rules command (texts earlier.now) word.now) }
{
    fails_if(NO_EQUALS, !has_equals(word))
        .or_else(|| fails_if(UNKNOWN_KEY, is_unknown(command, word)))
        .or_else(|| fails_if(KEY_TWICE, has_key(earlier, key_in(word))))
        .or_else(|| fails_if(BAD_VALUE, is_bad_value(command, word)))
}

#[tactic(auto, unfolding(crate::specs::WordRules::fails_if))]
fn fails_if(rule: u8, fails: bool) -> Option<u8>
    ensures { result ≡ fails_if rule fails }
{
    fails.then_some(rule)
}

// The first required key that no word has.
fn missing_fault(command: Command, later: &[String]) -> Option<WordFault>
    ensures { result ≡ missing_fault command (texts later.now) }
{
    let place = missing_place(command, later)?;
    fault_at(place as u64 + 1, MISSING_KEY)
}

fn missing_place(command: Command, later: &[String]) -> Option<usize>
    ensures value { result ≡ position (is_missing (texts later.now)) (required_keys command) }
    ensures within { IfSome result (λ k. k < length (required_keys command)) }
{
    required_keys(command)
        .iter()
        .position(|key| is_missing(later, *key))
}

#[tactic(auto, unfolding(crate::specs::Words::is_missing))]
fn is_missing(later: &[String], key: Key) -> bool
    ensures { result ≡ is_missing (texts later.now) key }
{
    !has_key(later, key_text(key))
}

// What the command writes would take the name of a file that it reads.
fn reuse_fault(command: Command, later: &[String]) -> Option<WordFault>
    ensures { result ≡ reuse_fault command (texts later.now) }
{
    if is_reused(command, written_file(command), later) {
        fault_at(0, NAME_REUSED)
    } else {
        None
    }
}
