// A script: a table over rows of its own, and calls on it.
use crate::row::Scripted;
use anyhow::anyhow;
use losses::{BusRow, ModuleRow, Table, TableRefusal};
use std::io;

pub(crate) fn run(rt: &HostRuntime, line: &str) -> anyhow::Result<()> {
    let Some((table, calls)) = line.split_once(" ; ") else {
        return Err(anyhow!("a script has a table and calls"));
    };
    let words: Vec<&str> = table.split_whitespace().collect(rt.alloc())?;
    match words.as_slice() {
        ["modules", rows] => {
            let mut rows = vec![in rt.alloc(); ModuleRow::default(); rows.parse::<usize>()?]?;
            run_calls(rt, &mut rows, calls)
        }
        ["interfaces", rows] => {
            let mut rows = vec![in rt.alloc(); BusRow::default(); rows.parse::<usize>()?]?;
            run_calls(rt, &mut rows, calls)
        }
        _ => Err(anyhow!("no such table")),
    }
}

fn run_calls<R: Scripted>(rt: &HostRuntime, rows: &mut [R], calls: &str) -> anyhow::Result<()> {
    let mut table = Table::new(rows);
    for call in calls.split(" ; ") {
        let words: Vec<&str> = call.split_whitespace().collect(rt.alloc())?;
        run_call(rt, &mut table, &words)?;
    }
    Ok(())
}

fn run_call<R: Scripted>(
    rt: &HostRuntime,
    table: &mut Table<'_, R>,
    words: &[&str],
) -> anyhow::Result<()> {
    match words {
        ["note", key, number] => match table.note(R::noting(key, number)?) {
            Ok(()) => {}
            Err(refusal) => print_refusal(rt, refusal)?,
        },
        ["row", key] => match table.look_up(key.parse::<u32>()?) {
            Ok(row) => row.print(rt)?,
            Err(refusal) => print_refusal(rt, refusal)?,
        },
        ["rows"] => print_rows(rt, table.rows())?,
        ["next", fields @ .., number] => {
            let row = R::row(fields)?;
            let Some(key) = fields.first() else {
                return Err(anyhow!("a row has fields"));
            };
            row.next(R::noting(key, number)?).print(rt)?;
        }
        _ => return Err(anyhow!("no such call")),
    }
    Ok(())
}

fn print_refusal(rt: &HostRuntime, refusal: TableRefusal) -> io::Result<()> {
    let number = refusal.number();
    println!(rt; "  refused with {number}")
}

fn print_rows<R: Scripted>(rt: &HostRuntime, rows: &[R]) -> io::Result<()> {
    for row in rows {
        row.print(rt)?;
    }
    Ok(())
}
