// The words of a command line.
ghost use Rattle.std.specs.Prelude.{◌≡◌, [], ◌∷◌, ◌++◌, OnOk, OnErr, List, map};
ghost use Rattle.std.specs.String.{string_bytes};

use service_model::NoMemory;
use std::alloc::Global;
use std::marker::Model;

/// The words of a command line, without the program's own name.
#[derive(Drop)]
pub struct Words {
    alloc: Global,
    words: Vec<String>,
}

impl Model for Words {
    ghost use Rattle.std.specs.Prelude.{List, ℕ, map};
    ghost use Rattle.std.specs.String.{string_bytes};

    ghost Value = { List (List ℕ) };

    ghost view = { λ w. map (λ s. string_bytes s) w.words.items };
}

impl Words {
    /// No words.
    pub fn new(alloc: Global) -> Words
        ensures { result ≡ [] }
    {
        Words {
            alloc,
            words: Vec::new(alloc),
        }
    }

    /// Puts a word behind the others.
    pub fn push(&mut self, word: &str) -> Result<(), NoMemory>
        ensures ok { OnOk result (self.new ≡ self.old ++ word.now ∷ []) }
        ensures err { OnErr result (self.new ≡ self.old) }
    {
        let word = String::from_str(self.alloc, word)?;
        self.words.push(word)?;
        Ok(())
    }

    /// The words, in their order.
    pub fn as_slice(&self) -> &[String]
        ensures { map (λ s. string_bytes s) result.now ≡ self.now }
    {
        &self.words
    }
}
