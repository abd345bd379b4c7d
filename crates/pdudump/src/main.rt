// Reads datagrams in hexadecimal, one to a line, and prints what each says or why it is refused.
#![tactic(auto)]

mod dump;
mod line;

use dump::Report;
use line::{Datagram, LineError, parse};
use std::io::{BufRead, BufReader};

fn main(rt: HostRuntime) -> anyhow::Result<()> {
    run(&rt)
}

fn run(rt: &HostRuntime) -> anyhow::Result<()> {
    let mut input = BufReader::new(rt.alloc(), rt.stdin())?;
    let mut text = Vec::new(rt.alloc());
    // A count, since every loop must end.
    for number in 1..u64::MAX {
        text.clear();
        if input.read_until(b'\n', &mut text)? == 0 {
            break;
        }
        print_line(rt, number, &text)?;
    }
    Ok(())
}

// What a line gives. The printing stands apart, so that a line that is passed over does not pay for it.
fn print_line(rt: &HostRuntime, number: u64, text: &[u8]) -> anyhow::Result<()> {
    match parse(rt.alloc(), text) {
        Ok(None) => Ok(()),
        Ok(Some(datagram)) => print_datagram(rt, number, &datagram),
        Err(LineError::Malformed) => print_malformed(rt, number),
        Err(LineError::Memory(error)) => Err(error.into()),
    }
}

#[inline(never)]
fn print_datagram(rt: &HostRuntime, line: u64, datagram: &Datagram) -> anyhow::Result<()> {
    let report = Report {
        line,
        end: datagram.end,
        octets: &datagram.octets,
    };
    print!(rt; "{report}")?;
    Ok(())
}

#[inline(never)]
fn print_malformed(rt: &HostRuntime, number: u64) -> anyhow::Result<()> {
    println!(rt;
        "line {number}: not a datagram; expected 'sender' or 'receiver', one space, and octets in hexadecimal or '-'"
    )?;
    Ok(())
}
