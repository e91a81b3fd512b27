// Cases against the calls on a canonical copy: each line of standard input is a script, and is printed with its answers.
//   open DIRECTION MODULE LENGTH             a copy into an output of so many bytes, each 0xEE
//   add TYPE INTERFACE TIME FLAGS BYTES      an entry; TYPE, TIME and FLAGS are hexadecimal
//   take BYTES                               a packet
//   close
//   lend LENGTH                              the next call is lent another output, of so many bytes
//   packets COUNT                            adds entries of two codes in turn, so that each begins a packet
//   read BYTES                               a recording is read back: its stream, and its entries one by one
//   recopy BYTES LENGTH                      the canonical copy of a recording, into an output of so many bytes, each 0xEE
// They are joined by ` ; `; the last two are calls on no copy. A line that begins with `#` is printed as it is.
#![tactic(auto)]

mod bytes;
mod recording;
mod report;
mod script;

fn main(rt: HostRuntime) -> anyhow::Result<()> {
    for line in rt.lines(rt.alloc()) {
        let line = line?;
        println!(rt; "{line}")?;
        if !line.starts_with('#') {
            script::run(&rt, line.as_str())?;
        }
    }
    Ok(())
}
