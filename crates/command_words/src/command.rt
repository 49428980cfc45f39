// The commands with their keys: what may stand on a command line.
ghost use Rattle.std.specs.Prelude.{◌≡◌};
ghost use Rattle.command_words.specs.Commands.{command_named, required_keys, further_keys, key_text, value_kind, file_key, reads_network, further_file, written_file, IsReadable};

use crate::file_word::FileWord;
use crate::limits::{MAX_EXTRA, MAX_SEED};
use service_model::cert_rules::MAX_BUDGET;
use service_model::{MAX_HORIZON, MAX_STAGES};

/// What the first word asks for.
#[derive(Clone, Copy, Debug, PartialEq, Eq)]
pub enum Command {
    /// The least plan of a network.
    Solve,
    /// The least plan again and again, while the network is edited by a script.
    Session,
    /// What a plan costs, or which rule it breaks.
    Audit,
    /// Whether a certificate is accepted, or which rule fails on it.
    Check,
    /// What an accepted certificate says: how ranges were cut, and what binds the plan.
    Explain,
    /// Where a network is entangled: its bridges and clusters.
    Clusters,
    /// The least plan of a network that is made from a number.
    Trial,
}

/// A key of a command. Two keys of different commands may have one text.
#[derive(Clone, Copy, Debug, PartialEq, Eq)]
pub enum Key {
    Stages,
    Tables,
    Arcs,
    Horizon,
    /// The budget of ranges.
    Ranges,
    /// The edits of a session.
    Script,
    Plan,
    Cert,
    /// The number from which a trial network is made.
    Seed,
    /// How many stages a trial network has.
    Size,
    /// How many pairs of its stages are drawn beside the arcs that hold it together.
    Extra,
}

/// What the value behind a key may be.
#[derive(Clone, Copy, Debug, PartialEq, Eq)]
pub enum ValueKind {
    /// A file's name, which is not empty.
    FileName,
    /// A whole number from the first to the second.
    WholeNumber(u64, u64),
}

/// The command that a word names.
pub fn command_named(word: &str) -> Option<Command>
    ensures { result ≡ command_named word.now }
{
    if word.as_bytes() == b"solve".as_slice() {
        Some(Command::Solve)
    } else if word.as_bytes() == b"session".as_slice() {
        Some(Command::Session)
    } else if word.as_bytes() == b"audit".as_slice() {
        Some(Command::Audit)
    } else if word.as_bytes() == b"check".as_slice() {
        Some(Command::Check)
    } else if word.as_bytes() == b"explain".as_slice() {
        Some(Command::Explain)
    } else if word.as_bytes() == b"clusters".as_slice() {
        Some(Command::Clusters)
    } else if word.as_bytes() == b"trial".as_slice() {
        Some(Command::Trial)
    } else {
        None
    }
}

/// The keys that a command requires, in the order in which a missing one is looked for.
pub fn required_keys(command: Command) -> &'static [Key]
    ensures { result.now ≡ required_keys command }
{
    match command {
        Command::Solve => &[Key::Stages, Key::Tables, Key::Arcs, Key::Horizon],
        Command::Session => &[
            Key::Stages,
            Key::Tables,
            Key::Arcs,
            Key::Horizon,
            Key::Script,
        ],
        Command::Audit => &[Key::Stages, Key::Tables, Key::Arcs, Key::Horizon, Key::Plan],
        Command::Check | Command::Explain => {
            &[Key::Stages, Key::Tables, Key::Arcs, Key::Horizon, Key::Cert]
        }
        Command::Clusters => &[Key::Stages, Key::Tables, Key::Arcs, Key::Horizon],
        Command::Trial => &[Key::Seed, Key::Size, Key::Extra, Key::Horizon],
    }
}

/// The keys that a command takes beside those that it requires.
pub fn further_keys(command: Command) -> &'static [Key]
    ensures { result.now ≡ further_keys command }
{
    match command {
        Command::Solve | Command::Session => &[Key::Ranges, Key::Cert],
        Command::Audit | Command::Check | Command::Explain | Command::Clusters => &[],
        Command::Trial => &[Key::Ranges],
    }
}

/// The text of a key, which stands before the `=`.
pub fn key_text(key: Key) -> &'static str
    ensures { result.now ≡ key_text key }
{
    match key {
        Key::Stages => "stages",
        Key::Tables => "tables",
        Key::Arcs => "arcs",
        Key::Horizon => "horizon",
        Key::Ranges => "ranges",
        Key::Script => "script",
        Key::Plan => "plan",
        Key::Cert => "cert",
        Key::Seed => "seed",
        Key::Size => "stages",
        Key::Extra => "extra",
    }
}

/// What a key's value may be.
pub fn value_kind(key: Key) -> ValueKind
    ensures value { result ≡ value_kind key }
    ensures within { IsReadable result }
{
    match key {
        Key::Stages | Key::Tables | Key::Arcs | Key::Script | Key::Plan | Key::Cert => {
            ValueKind::FileName
        }
        Key::Horizon => ValueKind::WholeNumber(0, MAX_HORIZON as u64),
        Key::Ranges => ValueKind::WholeNumber(1, MAX_BUDGET as u64),
        Key::Seed => ValueKind::WholeNumber(0, MAX_SEED),
        Key::Size => ValueKind::WholeNumber(1, MAX_STAGES as u64),
        Key::Extra => ValueKind::WholeNumber(0, MAX_EXTRA as u64),
    }
}

/// The key of the word that names a file.
pub fn file_key(file: FileWord) -> Key
    ensures { result ≡ file_key file }
{
    match file {
        FileWord::Stages => Key::Stages,
        FileWord::Tables => Key::Tables,
        FileWord::Arcs => Key::Arcs,
        FileWord::Script => Key::Script,
        FileWord::Plan => Key::Plan,
        FileWord::Cert => Key::Cert,
    }
}

/// Whether a command reads the three files of a network.
pub fn reads_network(command: Command) -> bool
    ensures { result ≡ reads_network command }
{
    match command {
        Command::Solve | Command::Session | Command::Audit => true,
        Command::Check | Command::Explain | Command::Clusters => true,
        Command::Trial => false,
    }
}

/// The file that a command reads behind the three of its network.
pub fn further_file(command: Command) -> Option<FileWord>
    ensures { result ≡ further_file command }
{
    match command {
        Command::Solve | Command::Clusters | Command::Trial => None,
        Command::Session => Some(FileWord::Script),
        Command::Audit => Some(FileWord::Plan),
        Command::Check | Command::Explain => Some(FileWord::Cert),
    }
}

/// The word of the files that a command writes where its key is given.
pub fn written_file(command: Command) -> Option<FileWord>
    ensures { result ≡ written_file command }
{
    match command {
        Command::Solve | Command::Session => Some(FileWord::Cert),
        Command::Audit | Command::Check | Command::Explain => None,
        Command::Clusters | Command::Trial => None,
    }
}
