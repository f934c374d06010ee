//! Calls on elements at sizes that are asked for, so that their time can be taken from outside.
//!
//! Each word after the program's name is a case, as `"classes chain 8192"`. What is printed does not depend on time.
#![tactic(auto)]

mod answer;
mod builder;
mod cases;
mod codes;
mod cycles;
mod growths;
mod partitions;
mod products;
mod rays;
mod separations;
mod stores;

use cases::measure;
use std::{env, io};

fn main(rt: HostRuntime) -> io::Result<()> {
    for case in env::args(&rt)?.skip(1) {
        match measure(rt.alloc(), case.as_str()) {
            Ok(answer) => println!(rt; "{case}: {answer}")?,
            Err(stop) => println!(rt; "{case}: {stop}")?,
        }
    }
    Ok(())
}
