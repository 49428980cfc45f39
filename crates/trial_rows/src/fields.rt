// The fields of rows.
ghost use Rattle.std.specs.Prelude.{◌≡◌, ◌+◌, ◌∷◌, ◌++◌, [], IfOk, codes, map};
ghost use Rattle.std.specs.Fmt.{decimal};
ghost use Rattle.trial_rows.specs.Trials.{name_of};

use service_model::{List, NoMemory};
use stage_file::{Row, Text};
use std::alloc::Global;

/// A text with a number behind it.
pub fn numbered(alloc: Global, text: &[u8], value: u64) -> Result<Text, NoMemory>
    ensures { IfOk result (λ whole. whole ≡ text.now ++ decimal value) }
{
    let mut buffer = itoa::Buffer::new();
    let mut whole = Vec::from_slice(alloc, text)?;
    whole.extend_from_slice(buffer.format(value).as_bytes())?;
    Ok(List::from_vec(whole))
}

/// A number as its digits.
pub fn number(alloc: Global, value: u64) -> Result<Text, NoMemory>
    ensures { IfOk result (λ text. text ≡ decimal value) }
{
    numbered(alloc, b"", value)
}

/// The name of a stage, by its number from 0 on.
pub fn name(alloc: Global, stage: u32) -> Result<Text, NoMemory>
    ensures { IfOk result (λ text. text ≡ name_of stage) }
{
    numbered(alloc, b"s", stage as u64 + 1)
}

/// A row of fixed words.
pub fn words(alloc: Global, words: &[&str]) -> Result<Row, NoMemory>
    ensures { IfOk result (λ row. row ≡ map (λ w. w.now) words.now) }
{
    let mut row = List::new(alloc);
    'words: for word in words {
        row.push(List::copied(alloc, word.as_bytes())?)?;
    }
    Ok(row)
}
