ghost use Rattle.std.specs.Prelude.{IsTrue};
ghost use Rattle.edit_script.specs.Edited.{HasColumn};

// Each word of a script once, and each refusal of a row and of an edit, over the files of the worked session.
use crate::names::{Name, place_of};
use crate::*;
use service_model::{List, NoMemory};
use stage_file::{Files, Row, Rows, Text, rows_of};
use std::alloc::Global;
use std::test::Fail;

const STAGES: &[u8] = b"stage\nA,1,,,,t,1\nB,1,,,,t,2\nC,2,,,0,t,3\n";

const TABLES: &[u8] = b"table\nt,0,3,5,6,7\n";

const ARCS: &[u8] = b"supplier\nA,B\nB,C\n";

// A row of a script, and then the stage, the table and the arc file behind it; or else what is said, and nothing.
type Case = (&'static [u8], &'static [u8], &'static [u8], &'static [u8]);

const CASES: [Case; 22] = [
    (b"solve", b"solve", b"", b""),
    (
        b"set-stage,C,lead,1",
        b"stage\nA,1,,,,t,1\nB,1,,,,t,2\nC,1,,,0,t,3\n",
        TABLES,
        ARCS,
    ),
    // A blank value is dropped with the blank end of its row, and is meant.
    (
        b"set-stage,C,most,",
        b"stage\nA,1,,,,t,1\nB,1,,,,t,2\nC,2,,,,t,3\n",
        TABLES,
        ARCS,
    ),
    (
        b"add-stage,D,0,,,,t,1",
        b"stage\nA,1,,,,t,1\nB,1,,,,t,2\nC,2,,,0,t,3\nD,0,,,,t,1\n",
        TABLES,
        ARCS,
    ),
    (
        b"drop-stage,A",
        b"stage\nB,1,,,,t,2\nC,2,,,0,t,3\n",
        TABLES,
        ARCS,
    ),
    (b"set-table,t,5,", STAGES, b"table\nt,5\n", ARCS),
    (
        b"add-table,u,1,2",
        STAGES,
        b"table\nt,0,3,5,6,7\nu,1,2\n",
        ARCS,
    ),
    (b"drop-table,t", STAGES, b"table\n", ARCS),
    (b"set-arc,B,C,2", STAGES, TABLES, b"supplier\nA,B\nB,C,2\n"),
    (b"add-arc,C,A", STAGES, TABLES, b"supplier\nA,B\nB,C\nC,A\n"),
    (
        b"add-arc,C,A,3",
        STAGES,
        TABLES,
        b"supplier\nA,B\nB,C\nC,A,3\n",
    ),
    (b"drop-arc,B,C", STAGES, TABLES, b"supplier\nA,B\n"),
    (b"settle", b"E1", b"", b""),
    (b" , ", b"E1", b"", b""),
    (b"set-stage,C,name,1", b"E1", b"", b""),
    // The number of fields is tested before the word of the column.
    (b"set-stage,C,name,1,1", b"E2", b"", b""),
    (b"solve,now", b"E2", b"", b""),
    (b"add-stage,D,0,,,,t,", b"E2", b"", b""),
    (b"set-arc,B,C,", b"E2", b"", b""),
    // The header is no record.
    (b"drop-stage,stage", b"E3", b"", b""),
    (b"set-table,T,1", b"E3", b"", b""),
    (b"drop-arc,B,A", b"E3", b"", b""),
];

#[test]
fn each_word_of_a_script_does_what_it_says(rt: HostRuntime) -> Result<(), Fail> {
    let alloc = rt.alloc();
    for (script, stages, tables, arcs) in CASES {
        let mut wanted = Vec::from_slice(alloc, stages)?;
        wanted.extend_from_slice(tables)?;
        wanted.extend_from_slice(arcs)?;
        let said = said_by(alloc, script, &files_of(alloc, STAGES, TABLES, ARCS)?)?;
        assert_eq!(rt; said.as_slice(), wanted.as_slice(), "{script:?}");
    }
    Ok(())
}

#[test]
fn rows_without_a_header_get_the_usual_one(rt: HostRuntime) -> Result<(), Fail> {
    let files = files_of(rt.alloc(), b"stage\nA,1,,,,t,1\n", b" , \n", b"")?;
    let said = said_by(rt.alloc(), b"add-table,t,0,3", &files)?;
    assert_eq!(rt;
        said.as_slice(),
        b"stage\nA,1,,,,t,1\n\ntable,x\nt,0,3\n".as_slice()
    );
    Ok(())
}

fn files_of(alloc: Global, stages: &[u8], tables: &[u8], arcs: &[u8]) -> Result<Files, NoMemory> {
    Ok(Files {
        stages: rows_of(alloc, stages)?,
        tables: rows_of(alloc, tables)?,
        arcs: rows_of(alloc, arcs)?,
    })
}

// What the first row of a script says, or the files behind it.
fn said_by(alloc: Global, script: &[u8], files: &Files) -> Result<Vec<u8>, NoMemory> {
    match read_row(alloc, &first_row(alloc, script)?) {
        Ok(Step::Solve) => said(alloc, b"solve"),
        Ok(Step::Change(edit)) if has_column(files, &edit) => match apply(alloc, files, &edit) {
            Ok(edited) => text_of(alloc, &edited),
            Err(ApplyFault::Unknown) => said(alloc, b"E3"),
            Err(ApplyFault::NoMemory) => Err(NoMemory),
        },
        Ok(Step::Change(_)) => said(alloc, b"no column"),
        Err(EditFault::Word) => said(alloc, b"E1"),
        Err(EditFault::Count) => said(alloc, b"E2"),
        Err(EditFault::NoMemory) => Err(NoMemory),
    }
}

fn said(alloc: Global, text: &[u8]) -> Result<Vec<u8>, NoMemory> {
    Ok(Vec::from_slice(alloc, text)?)
}

fn first_row(alloc: Global, script: &[u8]) -> Result<Row, NoMemory> {
    let mut rows = rows_of(alloc, script)?.into_vec();
    Ok(rows.pop().unwrap_or(List::new(alloc)))
}

// Whether the row of the stage that is named has the column.
fn has_column(files: &Files, edit: &Edit) -> bool
    ensures { IsTrue result → HasColumn files.now edit.now }
{
    let Edit::SetStage { name, column, .. } = edit else {
        return true;
    };
    match place_of(&files.stages, &Name::One(name.as_slice())) {
        Some(place) => files.stages.get(place).len() >= *column as usize,
        None => true,
    }
}

fn text_of(alloc: Global, files: &Files) -> Result<Vec<u8>, NoMemory> {
    let mut text = Vec::new(alloc);
    put_rows(&mut text, &files.stages)?;
    put_rows(&mut text, &files.tables)?;
    put_rows(&mut text, &files.arcs)?;
    Ok(text)
}

fn put_rows(text: &mut Vec<u8>, rows: &Rows) -> Result<(), NoMemory> {
    for k in 0..rows.len() {
        put_row(text, rows.get(k).as_slice())?;
    }
    Ok(())
}

fn put_row(text: &mut Vec<u8>, fields: &[Text]) -> Result<(), NoMemory> {
    for k in 0..fields.len() {
        if k > 0 {
            text.push(b',')?;
        }
        text.extend_from_slice(fields[k].as_slice())?;
    }
    text.push(b'\n')?;
    Ok(())
}
