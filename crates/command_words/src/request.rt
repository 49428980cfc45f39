// What the words ask for.
ghost use Rattle.std.specs.Prelude.{◌≡◌, ◌≤◌, ◌^◌, drop, option_map, unwrap_or, IfSome};
ghost use Rattle.service_model.specs.declared.limits.TheConstants.{MAX_HORIZON, MAX_STAGES};
ghost use Rattle.command_words.specs.Words.{texts, value_at};
ghost use Rattle.command_words.specs.Asked.{number_in, ranges_in, network_name, trial_in, further_name, written_name, asked_by, command_of, asked_of, cert_name};
ghost use Rattle.command_words.specs.Commands.{command_named};
ghost use Rattle.command_words.specs.Requests.{request_as, IsRanges, IsTrialNumbers, IsRequest, RequestCase};

use crate::asked::{Request, TrialNumbers};
use crate::command::{
    Command, Key, command_named, file_key, further_file, key_text, reads_network, written_file,
};
use crate::file_word::FileWord;
use crate::limits::{MAX_EXTRA, MAX_SEED};
use crate::word_fault::{WordFault, word_fault};
use crate::word_tests::{has_key, value_at};
use crate::words::Words;
use gsm_nums::read_whole;
use service_model::cert_rules::MAX_BUDGET;
use service_model::{MAX_HORIZON, MAX_STAGES};

/// What the words ask for, their keys in any order, or the first rule on words that fails.
#[tactic(auto, unfolding(crate::specs::Asked::asked_of))]
pub fn request_of(words: &Words) -> Result<Request<'_>, WordFault>
    ensures { RequestCase words.now result }
{
    let words = words.as_slice();
    match word_fault(words) {
        Some(fault) => Err(fault),
        None => Ok(request_in(words)),
    }
}

/// The name of the certificate that the words ask for; none where a rule on them fails.
pub fn cert_name(words: &Words) -> Option<&str>
    ensures { option_map (λ name. name.now) result ≡ cert_name words.now }
{
    match request_of(words) {
        Ok(request) => request.cert,
        Err(_) => None,
    }
}

fn request_in(words: &[String]) -> Request<'_>
    ensures value { request_as result ≡ asked_by (command_of (texts words.now)) (drop 1 (texts words.now)) }
    ensures known { IsRequest result }
{
    match words {
        [first, later @ ..] => request_by(command_or_solve(first.as_str()), later),
        [] => request_by(Command::Solve, words),
    }
}

// The command that a word names; `solve` where it names none, which no rule on words lets through.
fn command_or_solve(word: &str) -> Command
    ensures { result ≡ unwrap_or (command_named word.now) Command.Solve }
{
    command_named(word).unwrap_or(Command::Solve)
}

fn request_by(command: Command, later: &[String]) -> Request<'_>
    ensures value { request_as result ≡ asked_by command (texts later.now) }
    ensures known { IsRequest result }
{
    let network = reads_network(command);
    Request {
        command,
        stages: network_name(network, Key::Stages, later),
        tables: network_name(network, Key::Tables, later),
        arcs: network_name(network, Key::Arcs, later),
        further: further_name(further_file(command), later),
        cert: written_name(written_file(command), later),
        horizon: horizon_in(later),
        ranges: ranges_in(later),
        trial: trial_in(network, later),
    }
}

// The name of one of the three files of a network.
fn network_name(network: bool, key: Key, later: &[String]) -> &str
    ensures { result.now ≡ network_name network key (texts later.now) }
{
    if network { value_at(key, later) } else { "" }
}

// The numbers that a trial network is made from, where the command reads no network.
fn trial_in(network: bool, later: &[String]) -> Option<TrialNumbers>
    ensures value { result ≡ trial_in network (texts later.now) }
    ensures within { IfSome result IsTrialNumbers }
{
    if network {
        return None;
    }
    let stages = number_in(1, MAX_STAGES as u64, value_at(Key::Size, later));
    let extra = number_in(0, MAX_EXTRA as u64, value_at(Key::Extra, later));
    Some(TrialNumbers {
        seed: number_in(0, MAX_SEED, value_at(Key::Seed, later)),
        stages: stages as u32,
        extra: extra as u32,
    })
}

// The name of a command's further file.
fn further_name(file: Option<FileWord>, later: &[String]) -> &str
    ensures { result.now ≡ further_name file (texts later.now) }
{
    match file {
        Some(file) => value_at(file_key(file), later),
        None => "",
    }
}

// The name of the file that a command writes, where its key is given.
fn written_name(file: Option<FileWord>, later: &[String]) -> Option<&str>
    ensures { option_map (λ name. name.now) result ≡ written_name file (texts later.now) }
{
    let key = file_key(file?);
    if has_key(later, key_text(key)) {
        Some(value_at(key, later))
    } else {
        None
    }
}

// The horizon.
fn horizon_in(later: &[String]) -> u16
    ensures value { result ≡ number_in 0 MAX_HORIZON (value_at Key.Horizon (texts later.now)) }
    ensures within { result ≤ MAX_HORIZON }
{
    number_in(0, MAX_HORIZON as u64, value_at(Key::Horizon, later)) as u16
}

// The budget of ranges, where its key is given.
fn ranges_in(later: &[String]) -> Option<u32>
    ensures value { result ≡ ranges_in (texts later.now) }
    ensures within { IsRanges result }
{
    if has_key(later, key_text(Key::Ranges)) {
        let ranges = number_in(1, MAX_BUDGET as u64, value_at(Key::Ranges, later));
        Some(ranges as u32)
    } else {
        None
    }
}

// The number that a value shows; the least where it shows none of its range, which no rule on words lets through.
#[tactic(auto, unfolding(crate::specs::Asked::number_in))]
fn number_in(least: u64, most: u64, value: &str) -> u64
    requires order { least ≤ most }
    requires small { most ≤ 10 ^ 18 }
    ensures value { result ≡ number_in least most value.now }
    ensures above { least ≤ result }
    ensures within { result ≤ most }
{
    match read_whole(value.as_bytes(), least, most) {
        Ok(number) => number,
        Err(_) => least,
    }
}
