// What the rules on words test: a word's key and its value.
ghost use Rattle.std.specs.Prelude.{◌≡◌, find, option_map, string_bytes};
ghost use Rattle.std.specs.List.{list_any};
ghost use Rattle.command_words.specs.Commands.{IsReadable};
ghost use Rattle.command_words.specs.Words.{texts, has_equals, key_in, value_in, is_named, key_among, key_named, is_allowed, is_unknown, is_keyed, has_key, value_at, is_bad_value, is_kept_at, is_further_kept, is_read, is_reused};

use crate::command::{
    Command, Key, ValueKind, file_key, further_file, further_keys, key_text, required_keys,
    value_kind,
};
use crate::file_word::FileWord;
use crate::names::{is_kept, naming};
use gsm_nums::read_whole;

/// Whether a word has a `=`.
#[tactic(auto, unfolding(crate::specs::Words::has_equals))]
pub fn has_equals(word: &str) -> bool
    ensures { result ≡ has_equals word.now }
{
    word.as_bytes().iter().any(|byte| *byte == b'=')
}

/// What stands before the first `=`; the whole word where there is none.
#[tactic(auto, unfolding(crate::specs::Words::key_in))]
pub fn key_in(word: &str) -> &str
    ensures { result.now ≡ key_in word.now }
{
    match word.split_once('=') {
        Some((key, _)) => key,
        None => word,
    }
}

/// What stands behind the first `=`; nothing where there is none.
#[tactic(auto, unfolding(crate::specs::Words::value_in))]
pub fn value_in(word: &str) -> &str
    ensures { result.now ≡ value_in word.now }
{
    match word.split_once('=') {
        Some((_, value)) => value,
        None => "",
    }
}

// The key of that text among some.
fn key_among(keys: &[Key], text: &str) -> Option<Key>
    ensures { result ≡ key_among keys.now text.now }
{
    first_named(keys, text).copied()
}

#[tactic(auto, unfolding(crate::specs::Words::key_among))]
fn first_named<'a>(keys: &'a [Key], text: &str) -> Option<&'a Key>
    ensures { option_map (λ key. key.now) result ≡ key_among keys.now text.now }
{
    keys.iter().find(|key| is_named(key, text))
}

#[tactic(auto, unfolding(crate::specs::Words::is_named))]
fn is_named(key: &Key, text: &str) -> bool
    ensures { result ≡ is_named text.now key.now }
{
    text.as_bytes() == key_text(*key).as_bytes()
}

// The command's key of that text.
#[tactic(auto, unfolding(crate::specs::Words::key_named))]
fn key_named(command: Command, text: &str) -> Option<Key>
    ensures { result ≡ key_named command text.now }
{
    key_among(required_keys(command), text).or_else(|| key_among(further_keys(command), text))
}

#[tactic(auto, unfolding(crate::specs::Words::is_unknown))]
pub fn is_unknown(command: Command, word: &str) -> bool
    ensures { result ≡ is_unknown command word.now }
{
    key_named(command, key_in(word)).is_none()
}

/// Whether a word's key is that text.
#[tactic(auto, unfolding(crate::specs::Words::is_keyed))]
pub fn is_keyed(text: &str, word: &str) -> bool
    ensures { result ≡ is_keyed text.now word.now }
{
    key_in(word).as_bytes() == text.as_bytes()
}

fn any_keyed(words: &[String], text: &str) -> bool
    ensures { result ≡ list_any (λ s. is_keyed text.now (string_bytes s)) words.now }
{
    words.iter().any(|word| is_keyed(text, word.as_str()))
}

/// Whether one of some words has that key.
pub fn has_key(words: &[String], text: &str) -> bool
    ensures { result ≡ has_key (texts words.now) text.now }
{
    any_keyed(words, text)
}

/// Whether the value is not one that the word's key may have.
#[tactic(auto, unfolding(crate::specs::Words::is_bad_value))]
pub fn is_bad_value(command: Command, word: &str) -> bool
    ensures { result ≡ is_bad_value command word.now }
{
    match key_named(command, key_in(word)) {
        Some(key) => !is_allowed(value_kind(key), value_in(word)),
        None => false,
    }
}

#[tactic(auto, unfolding(crate::specs::Words::is_allowed))]
fn is_allowed(kind: ValueKind, value: &str) -> bool
    requires { IsReadable kind }
    ensures { result ≡ is_allowed kind value.now }
{
    match kind {
        ValueKind::FileName => !value.is_empty(),
        ValueKind::WholeNumber(least, most) => { read_whole(value.as_bytes(), least, most).is_ok() }
    }
}

/// The value of the first word that has the key; nothing where none has.
pub fn value_at(key: Key, later: &[String]) -> &str
    ensures { result.now ≡ value_at key (texts later.now) }
{
    match first_keyed(later, key_text(key)) {
        Some(word) => value_in(word.as_str()),
        None => "",
    }
}

fn first_keyed<'a>(words: &'a [String], text: &str) -> Option<&'a String>
    ensures { option_map (λ s. s.now) result ≡ find (λ s. is_keyed text.now (string_bytes s)) words.now }
{
    words.iter().find(|word| is_keyed(text, word.as_str()))
}

// Whether the name at a key is kept for what a command writes under a name.
#[tactic(auto, unfolding(crate::specs::Words::is_kept_at))]
fn is_kept_at(command: Command, key: Key, later: &[String], name: &str) -> bool
    ensures { result ≡ is_kept_at command key (texts later.now) name.now }
{
    is_kept(naming(command), name, value_at(key, later))
}

// Whether a command's further file has such a name.
#[tactic(auto, unfolding(crate::specs::Words::is_further_kept))]
fn is_further_kept(command: Command, file: Option<FileWord>, later: &[String], name: &str) -> bool
    ensures { result ≡ is_further_kept command file (texts later.now) name.now }
{
    match file {
        Some(file) => is_kept_at(command, file_key(file), later, name),
        None => false,
    }
}

// Whether a file that a command reads has such a name.
#[tactic(auto, unfolding(crate::specs::Words::is_read))]
fn is_read(command: Command, later: &[String], name: &str) -> bool
    ensures { result ≡ is_read command (texts later.now) name.now }
{
    is_kept_at(command, Key::Stages, later, name)
        || is_kept_at(command, Key::Tables, later, name)
        || is_kept_at(command, Key::Arcs, later, name)
        || is_further_kept(command, further_file(command), later, name)
}

/// Whether a name under which a command writes, where its key is given, keeps that of a file that it reads.
#[tactic(auto, unfolding(crate::specs::Words::is_reused))]
pub fn is_reused(command: Command, file: Option<FileWord>, later: &[String]) -> bool
    ensures { result ≡ is_reused command file (texts later.now) }
{
    match file {
        Some(file) => {
            let key = file_key(file);
            has_key(later, key_text(key)) && is_read(command, later, value_at(key, later))
        }
        None => false,
    }
}
