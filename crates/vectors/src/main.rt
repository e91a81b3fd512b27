// Cases against the public calls: each line of standard input is a case, and is printed with its answer.
//   read BYTES OFFSET          the entry at an offset of a packet
//   record KIND FLAGS BYTES    check and write of a record; KIND is message type and data type, as 3/02
//   part KIND FLAGS BYTES N    write of a record into a part of N bytes
//   sharing KIND               whether entries of a kind share packets
//   compare BYTES BYTES        two packets
// A line of another form is printed as it is.
#![tactic(auto)]

mod cases;
mod hex;

fn main(rt: HostRuntime) -> anyhow::Result<()> {
    for line in rt.lines(rt.alloc()) {
        let line = line?;
        cases::answer(&rt, line.as_str())?;
    }
    Ok(())
}
