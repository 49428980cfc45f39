// The rules on a header.
ghost use Rattle.std.specs.Prelude.{◌≡◌, ◌<◌, ◌-◌, ◌^◌, length, map, All};
ghost use Rattle.std.specs.Char.{to_ascii_lowercase};
ghost use Rattle.std.specs.Str.{str_to_ascii_lowercase, bytes_eq};
ghost use Rattle.service_model.specs.Search.{first_of};
ghost use Rattle.stage_file.specs.Faults.{header_rules, header_fault};
ghost use Rattle.stage_file.specs.Seen.{seen_as, all_seen, AreShort};

use crate::place::{fails_if, text_fault};
use crate::record::{Record, field_in};
use crate::rules::HEADER;
use crate::{FileFault, FileKind};

/// The first rule that fails on the header, where there is one. The word is in lower case.
pub fn header_fault(file: FileKind, word: &[u8], records: &[Record<'_>]) -> Option<FileFault>
    requires lower { str_to_ascii_lowercase word.now ≡ word.now }
    requires short { AreShort records.now }
    ensures { result ≡ header_fault file word.now (all_seen records.now) }
{
    match records {
        [] => None,
        [header, ..] => fault_of(file, word, header),
    }
}

fn fault_of(file: FileKind, word: &[u8], header: &Record<'_>) -> Option<FileFault>
    requires lower { str_to_ascii_lowercase word.now ≡ word.now }
    requires short { length header.now.fields.now < 2 ^ 32 }
    ensures { result ≡ first_of (header_rules file word.now (seen_as header.now)) }
{
    let number = header.number;
    let first = field_in(header.fields, 1);
    text_fault(file, header).or_else(|| fails_if(file, number, HEADER, 1, !is_word(first, word)))
}

fn is_word(field: &[u8], word: &[u8]) -> bool
    requires { str_to_ascii_lowercase word.now ≡ word.now }
    ensures { result ≡ bytes_eq (str_to_ascii_lowercase field.now) word.now }
{
    field.eq_ignore_ascii_case(word)
}
