// The words of a script.
ghost use Rattle.std.specs.Prelude.{◌≡◌, ◌≤◌, IfSome};
ghost use Rattle.edit_script.specs.Words.{word_text, word_named, takes, column_named, IsColumn};

/// What the first field of a row says.
#[derive(Clone, Copy, PartialEq, Eq)]
pub enum Word {
    Solve,
    SetStage,
    AddStage,
    DropStage,
    SetTable,
    AddTable,
    DropTable,
    SetArc,
    AddArc,
    DropArc,
}

/// The words of a script.
const WORDS: [Word; 10] = [
    Word::Solve,
    Word::SetStage,
    Word::AddStage,
    Word::DropStage,
    Word::SetTable,
    Word::AddTable,
    Word::DropTable,
    Word::SetArc,
    Word::AddArc,
    Word::DropArc,
];

fn word_text(word: Word) -> &'static [u8]
    ensures { result.now ≡ word_text word }
{
    match word {
        Word::Solve => b"solve",
        Word::SetStage => b"set-stage",
        Word::AddStage => b"add-stage",
        Word::DropStage => b"drop-stage",
        Word::SetTable => b"set-table",
        Word::AddTable => b"add-table",
        Word::DropTable => b"drop-table",
        Word::SetArc => b"set-arc",
        Word::AddArc => b"add-arc",
        Word::DropArc => b"drop-arc",
    }
}

/// The word that a field is.
#[tactic(auto, unfolding(crate::specs::Words::word_named))]
pub fn word_named(field: &[u8]) -> Option<Word>
    ensures { result ≡ word_named field.now }
{
    WORDS.iter().copied().find(|word| field == word_text(*word))
}

/// Whether a word takes so many fields, itself among them.
pub fn takes(word: Word, count: usize) -> bool
    ensures { result ≡ takes word count }
{
    match word {
        Word::Solve => count == 1,
        Word::DropStage | Word::DropTable => count == 2,
        Word::DropArc => count == 3,
        Word::AddArc => count == 3 || count == 4,
        Word::SetArc => count == 4,
        // A blank value is dropped with the blank end of its row.
        Word::SetStage => count == 3 || count == 4,
        Word::SetTable | Word::AddTable => count >= 3,
        Word::AddStage => count == 8,
    }
}

/// The column of a stage's record that a word names.
#[tactic(auto, unfolding(crate::specs::Words::column_named))]
pub fn column_named(word: &[u8]) -> Option<u8>
    ensures value { result ≡ column_named word.now }
    ensures within { IfSome result IsColumn }
{
    if word == b"lead".as_slice() {
        Some(2)
    } else if word == b"supply".as_slice() {
        Some(3)
    } else if word == b"least".as_slice() {
        Some(4)
    } else if word == b"most".as_slice() {
        Some(5)
    } else if word == b"bound".as_slice() {
        Some(6)
    } else if word == b"unit".as_slice() {
        Some(7)
    } else {
        None
    }
}
