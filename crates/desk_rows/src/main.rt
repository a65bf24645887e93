//! Runs the desk over days in memory, and compares what each run gives with what it must give.
//!
//! Each folder here but `usual` is a case, as `cases.rt` says. For each case it prints its name, and
//! where something else came, the transcript as it came. The status is 0 where each case gave what it
//! must give.
//!
//! A case costs no proof: it is a few files that a person can read, and `bench/row.py` runs it on the disk
//! by hand. It calls `desk_main_heard` of desk_top over the folder and the sink in memory of desk_folder.
//!
//! After the cases it explains the ends of runs that its standard input lists, as `explained.rt` says.
#![tactic(auto)]

mod cases;
mod explained;
mod gate;
mod heard;
mod lines;
mod play;
mod sink;
mod texts;
mod told;

use cases::{case_names, play_case};
use explained::explain_all;
use std::io;
use std::process::ExitCode;
use std::sync::Wait;
use std::thread::Threads;

// Plays a case, and prints its name, with what came where that is something else than must come.
fn is_as_expected<R: Threads + Wait + Sync>(
    rt: HostRuntime,
    threads: &R,
    name: &str,
) -> io::Result<bool> {
    let Some(played) = play_case(&rt, threads, name)? else {
        println!(rt; "{name}")?;
        return Ok(true);
    };
    println!(rt; "{name}: other than expected\n{played}")?;
    Ok(false)
}

// Plays each case, and answers how many gave something else than they must give.
fn play_all<R: Threads + Wait + Sync>(rt: HostRuntime, threads: &R) -> io::Result<u64> {
    let names = case_names(&rt)?;
    let mut others = 0u64;
    for name in &names {
        if !is_as_expected(rt, threads, name.as_str())? {
            others = others.saturating_add(1);
        }
    }
    println!(rt; "{} cases, {others} other than expected", names.len())?;
    Ok(others)
}

fn main(rt: HostRuntime) -> io::Result<ExitCode> {
    let others = play_all(rt, &rt)?;
    explain_all(rt)?;
    Ok(ExitCode::from(u8::from(others > 0)))
}
