// Holds two records against each other: both sets of totals, how far they lie apart, and the limits that hold.
#![tactic(auto)]

use agreement::pair::{Pair, compare};
use record::report::{ENOUGH, outcome};
use sheets::totals::Totals;
use std::fs::File;
use std::io::Read;
use std::{env, io};

const USAGE: &str = "usage: agree RECORD_A RECORD_B";

// Units for each cm/s standing: from the exact totals, and between two modules that saw the same motion.
const FROM_EXACT: u64 = 33;

const APART: u64 = 871;

fn read_file(rt: &HostRuntime, path: &str) -> io::Result<Vec<u8>> {
    let mut bytes = Vec::new(rt.alloc());
    File::open(rt, path)?.take(ENOUGH).read_to_end(&mut bytes)?;
    Ok(bytes)
}

// Whether the record is refused; if so, that is printed.
fn is_refused(rt: &HostRuntime, name: &str, bytes: &[u8]) -> io::Result<bool> {
    match outcome(bytes) {
        Ok(_) => Ok(false),
        Err(fault) => {
            let line = fault.page();
            print!(rt; "{name} {line}")?;
            Ok(true)
        }
    }
}

fn print_totals(rt: &HostRuntime, name: &str, totals: Totals) -> io::Result<()> {
    let Totals {
        speed,
        along,
        across,
    } = totals;
    let within = FROM_EXACT * u64::from(speed);
    println!(rt; "{name} speed {speed}")?;
    println!(rt; "{name} along {along}")?;
    println!(rt; "{name} across {across}")?;
    println!(rt; "{name} within {within} of exact")
}

fn print_pair(rt: &HostRuntime, pair: Pair) -> io::Result<()> {
    print_totals(rt, "a", pair.one)?;
    print_totals(rt, "b", pair.other)?;
    let along = pair.one.along.abs_diff(pair.other.along);
    let across = pair.one.across.abs_diff(pair.other.across);
    println!(rt; "along apart {along}")?;
    println!(rt; "across apart {across}")?;
    if pair.one.speed == pair.other.speed {
        let limit = APART * u64::from(pair.one.speed);
        println!(rt; "same motion within {limit}")
    } else {
        println!(rt; "not the same motion")
    }
}

fn print_both(rt: &HostRuntime, one: &[u8], other: &[u8]) -> io::Result<()> {
    let no_one = is_refused(rt, "a", one)?;
    let no_other = is_refused(rt, "b", other)?;
    if no_one || no_other {
        return Ok(());
    }
    print_pair(rt, compare(rt.alloc(), one, other)?)
}

fn run(rt: &HostRuntime) -> io::Result<()> {
    let mut words = env::args(rt)?;
    let _ = words.next();
    match (words.next(), words.next(), words.next()) {
        (Some(one), Some(other), None) => {
            let one = read_file(rt, one.as_str())?;
            let other = read_file(rt, other.as_str())?;
            print_both(rt, one.as_slice(), other.as_slice())
        }
        _ => println!(rt; "{USAGE}"),
    }
}

// An unreadable file is reported on standard error, with status 1.
fn main(rt: HostRuntime) -> io::Result<()> {
    run(&rt)
}
