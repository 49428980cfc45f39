// The fields of a row.
ghost use Rattle.std.specs.Prelude.{◌≡◌, ◌<◌, ◌≤◌, ◌+◌, ◌-◌, length};
ghost use Rattle.std.specs.List.{suffix_len};
ghost use Rattle.stage_file.specs.Rows.{is_blank, without_blank_end};
ghost use Rattle.stage_file.specs.Records.{field_in};
ghost use Rattle.edit_script.specs.Steps.{behind_word};

use stage_file::Text;

/// A row without the blank fields at its end.
#[tactic(auto, unfolding(stage_file::specs::Rows::without_blank_end))]
pub fn kept(row: &[Text]) -> &[Text]
    ensures { result.now ≡ without_blank_end row.now }
{
    &row[..kept_len(row)]
}

// How many fields are left where the blank ones at the end are dropped.
fn kept_len(row: &[Text]) -> usize
    ensures value { result ≡ length row.now - suffix_len is_blank row.now }
    ensures within { result ≤ length row.now }
{
    let mut kept = row.len();
    'fields: while kept > 0 && is_blank(row[kept - 1].as_slice()) {
        kept -= 1;
    }
    kept
}

fn is_blank(field: &[u8]) -> bool
    ensures { result ≡ is_blank field.now }
{
    field.iter().all(|byte| *byte == b' ')
}

/// The field of a column, from 1 on; nothing where there is none.
pub fn field_in(fields: &[Text], column: usize) -> &[u8]
    requires { 0 < column }
    ensures { result.now ≡ field_in fields.now column }
{
    match fields.get(column - 1) {
        Some(field) => field.as_slice(),
        None => &[],
    }
}

/// The fields behind the first.
pub fn behind_word(fields: &[Text]) -> &[Text]
    ensures { result.now ≡ behind_word fields.now }
{
    match fields {
        [] => fields,
        [_, behind @ ..] => behind,
    }
}
