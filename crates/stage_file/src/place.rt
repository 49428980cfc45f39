// Rules that fail, with their places.
ghost use Rattle.std.specs.Prelude.{◌≡◌, ◌<◌, ◌+◌, ◌-◌, ◌^◌, List, length, nat_le, position, IfSome, option_map};
ghost use Rattle.std.specs.List.{list_any};
ghost use Rattle.stage_file.specs.Names.{name_in, names_in};
ghost use Rattle.stage_file.specs.Stages.{is_name_of};
ghost use Rattle.stage_file.specs.Fields.{is_no_text};
ghost use Rattle.stage_file.specs.Seen.{seen_as, all_seen};
ghost use Rattle.stage_file.specs.Faults.{fault_of, fails_if, text_rule};

use crate::field::is_no_text;
use crate::record::{Record, field_in};
use crate::rules::NOT_TEXT;
use crate::{FileFault, FileKind, Names, Text};

/// A rule at a record and a column, where it fails.
#[tactic(auto, unfolding(crate::specs::Faults::fails_if))]
pub fn fails_if(file: FileKind, row: u32, rule: u8, column: u32, fails: bool) -> Option<FileFault>
    ensures { result ≡ fails_if file row rule column fails }
{
    fails.then_some(FileFault {
        file,
        row,
        rule,
        column,
    })
}

/// A rule at a field of a row of fields; the first stands in a column.
pub fn fails_at(
    file: FileKind,
    row: u32,
    rule: u8,
    column: u32,
    place: Option<usize>,
) -> Option<FileFault>
    requires { IfSome place (λ k. column + k < 2 ^ 32) }
    ensures { result ≡ option_map (λ k. fault_of file row rule (column + k)) place }
{
    place.map(|place| FileFault {
        file,
        row,
        rule,
        column: column + place as u32,
    })
}

fn no_text_place(fields: &[Text]) -> Option<usize>
    ensures value { result ≡ position is_no_text fields.now }
    ensures within { IfSome result (λ k. k < length fields.now) }
{
    fields.iter().position(is_no_text)
}

/// Each field is text.
#[tactic(auto, unfolding(crate::specs::Faults::fails_from))]
pub fn text_fault(file: FileKind, record: &Record<'_>) -> Option<FileFault>
    requires { length «record».now.fields.now < 2 ^ 32 }
    ensures { result ≡ text_rule file (seen_as «record».now) }
{
    fails_at(
        file,
        record.number,
        NOT_TEXT,
        1,
        no_text_place(record.fields),
    )
}

/// Whether there are as many earlier records as may be.
pub fn is_full(earlier: &[Record<'_>], most: usize) -> bool
    ensures { result ≡ nat_le most (length (all_seen earlier.now)) }
{
    earlier.len() >= most
}

/// Whether an earlier record has the name. The names are those of the earlier records.
#[tactic(auto, using(crate::proofs::NameFacts::taken_seen))]
pub fn is_twice(record: &Record<'_>, earlier: &[Record<'_>], names: &Names) -> bool
    requires { names.now ≡ names_in (all_seen earlier.now) }
    ensures { result ≡ list_any (is_name_of (name_in (seen_as «record».now))) (all_seen earlier.now) }
{
    names.has(field_in(record.fields, 1))
}
