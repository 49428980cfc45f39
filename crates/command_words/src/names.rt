// The names of the files that a command writes.
ghost use Rattle.std.specs.Prelude.{◌≡◌, IfOk, IsTrue, string_bytes};
ghost use Rattle.command_words.specs.Names.{naming, answer_name, is_kept};

use crate::command::Command;
use crate::file_word::Naming;
use service_model::NoMemory;
use std::alloc::Global;

/// How a command names the files that it writes.
pub fn naming(command: Command) -> Naming
    ensures { result ≡ naming command }
{
    match command {
        Command::Session => Naming::Numbered,
        Command::Solve | Command::Audit | Command::Check => Naming::Whole,
        Command::Explain | Command::Clusters | Command::Trial => Naming::Whole,
    }
}

/// The name of the file of the k-th answer, k from 1, under the name that the words give.
pub fn answer_name(alloc: Global, how: Naming, name: &str, k: u64) -> Result<String, NoMemory>
    ensures value { IfOk result (λ file. string_bytes file ≡ answer_name how name.now k) }
    ensures kept { IfOk result (λ file. IsTrue (is_kept how name.now (string_bytes file))) }
{
    match how {
        Naming::Whole => Ok(String::from_str(alloc, name)?),
        Naming::Numbered => Ok(format!(in alloc; "{name}-{k}")?),
    }
}

/// Whether a file's name is kept for what is written under a name.
#[tactic(auto, unfolding(crate::specs::Names::is_kept))]
pub fn is_kept(how: Naming, name: &str, file: &str) -> bool
    ensures { result ≡ is_kept how name.now file.now }
{
    match how {
        Naming::Whole => file.as_bytes() == name.as_bytes(),
        Naming::Numbered => match file.as_bytes().strip_prefix(name.as_bytes()) {
            Some(rest) => rest.starts_with(b"-"),
            None => false,
        },
    }
}
