// Cases against the loss table: each line of standard input is a script, and is printed with its answers.
//   modules ROWS             a table of so many rows of modules; or:
//   interfaces ROWS
//   note KEY NUMBER          a packet of a module and its counter; or an entry of an interface and its data bytes. Only a refusal is printed
//   row KEY                  the row of a module or an interface
//   rows                     the rows taken
//   next FIELDS.. NUMBER     what a row with these fields becomes by one more noting
// They are joined by ` ; `. A line that begins with `#` is printed as it is.
#![tactic(auto)]

mod row;
mod script;

fn main(rt: HostRuntime) -> anyhow::Result<()> {
    for line in rt.lines(rt.alloc()) {
        let line = line?;
        println!(rt; "{line}")?;
        if !line.starts_with('#') {
            script::run(&rt, line.as_str())?;
        }
    }
    Ok(())
}
