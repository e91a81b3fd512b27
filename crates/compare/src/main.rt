// compare: reads two files, each one TECMP packet, prints what they say, and whether they hold the same load.
#![tactic(auto)]

mod failure;
mod report;

use comparison::RefusedPacket;
use comparison::packets::compare::compare_packets;
use failure::Failure;
use kinds::STANDARD;
use std::process::ExitCode;
use std::{env, fs};

const USAGE: &str = "usage: compare FIRST SECOND";

const HELP: &str = "usage: compare FIRST SECOND

Reads two files, each one TECMP packet. Prints of each its module, the number of
its entries, and of every entry interface, time and what it says in the units of
the bench (of an analog record sample period and values, as `0.5 A`), and how
long its canonical copy is; then `same load`, or `different load` with the first
entry and field that differ. Two packets hold the same load if their entries
agree in number, order, code, interface, time and what they say, however it is
encoded. A refused packet is named with the refusal's number, its meaning and
offset.

Status: 0 for the same load; 1 for another, a refused packet or a file error.";

fn compare(rt: &HostRuntime, first: &str, second: &str) -> Result<(), Failure> {
    let first_packet = read_file(rt, first)?;
    let second_packet = read_file(rt, second)?;
    match compare_packets(&STANDARD, &first_packet, &second_packet) {
        Err(RefusedPacket::First(refusal)) => report::print_refusal(rt, first, refusal),
        Err(RefusedPacket::Second(refusal)) => report::print_refusal(rt, second, refusal),
        Ok(comparison) => {
            report::print_packet(rt, &STANDARD, first, &first_packet)?;
            report::print_packet(rt, &STANDARD, second, &second_packet)?;
            report::print_verdict(rt, comparison)
        }
    }
}

fn read_file(rt: &HostRuntime, name: &str) -> Result<Vec<u8>, Failure> {
    match fs::read(rt, name) {
        Ok(bytes) => Ok(bytes),
        Err(error) => {
            eprintln!(rt; "compare: {name}: {error}")?;
            Err(Failure::Unreadable)
        }
    }
}

fn run(rt: &HostRuntime) -> Result<(), Failure> {
    let args: Vec<String> = env::args(rt)?.collect(rt.alloc())?;
    match args.as_slice() {
        [_, first, second] => compare(rt, first.as_str(), second.as_str()),
        [_, option] if option.as_str() == "--help" => {
            println!(rt; "{HELP}")?;
            Ok(())
        }
        _ => {
            eprintln!(rt; "{USAGE}")?;
            Err(Failure::Usage)
        }
    }
}

// A refusal, a difference and a file error have been printed by then; want of memory and a failed output are said here.
fn main(rt: HostRuntime) -> ExitCode {
    match run(&rt) {
        Ok(()) => ExitCode::SUCCESS,
        Err(failure) => {
            // where standard error fails too, only the status is left
            let _said = match failure {
                Failure::Output(error) => eprintln!(rt; "compare: {error}"),
                Failure::OutOfMemory => eprintln!(rt; "compare: out of memory"),
                _ => Ok(()),
            };
            ExitCode::FAILURE
        }
    }
}

#[cfg(test)]
mod tests {
    use super::*;

    // One sample: 0.5 A, at factor 0.1.
    const TENTHS: [u8; 30] = [
        0, 64, 0, 1, 3, 3, 0, 0x20, 0, 0, 0, 15, 0, 0, 0, 7, 0, 0, 0, 0, 0, 0, 0, 1, 0, 2, 0x10, 4,
        0, 5,
    ];

    // The failure decides the status, and no contract speaks of files.
    #[test]
    fn ends_as_the_files_say(rt: HostRuntime) {
        let mut other = TENTHS;
        other[29] = 6;
        assert!(rt; fs::write(&rt, "tenths", &TENTHS).is_ok());
        assert!(rt; fs::write(&rt, "other", &other).is_ok());
        assert!(rt; fs::write(&rt, "empty", &[]).is_ok());
        assert!(rt; fs::write(&rt, "long", &[0; 1501]).is_ok());
        assert!(rt; compare(&rt, "tenths", "tenths").is_ok());
        assert!(rt; matches!(compare(&rt, "tenths", "other"), Err(Failure::Different)));
        assert!(rt; matches!(compare(&rt, "empty", "tenths"), Err(Failure::Refused)));
        assert!(rt; matches!(compare(&rt, "tenths", "long"), Err(Failure::Refused)));
        assert!(rt; matches!(compare(&rt, "tenths", "missing"), Err(Failure::Unreadable)));
    }
}
