//! Tests of the folder and of the sink: the host's own files, and what a folder and a sink in memory keep.

use desk_folder::FolderFault::Failed;
use desk_folder::{File, Folder, FolderFault, HostFolder, HostSink, MemFolder, MemSink, Sink};
use std::alloc::Global;
use std::fs;
use std::os::unix::fs::symlink;
use std::test::Fail;

/// A call of a folder, and what it is to give.
#[derive(Clone, Copy)]
enum Call {
    /// A read of a file into four bytes, and the bytes that it gives.
    Next(File, Result<&'static str, FolderFault>),
    /// A piece that is put to a file, and how many bytes of it are taken.
    Put(File, &'static str, Result<usize, FolderFault>),
}

/// Whether a read into four bytes gives this.
fn gives<F: Folder>(
    alloc: Global,
    folder: &mut F,
    file: File,
    want: Result<&str, FolderFault>,
) -> bool {
    let mut into = [0; 4];
    match (folder.next(alloc, file, &mut into), want) {
        (Ok(count), Ok(text)) => into.get(..count) == Some(text.as_bytes()),
        (answer, _) => answer.err() == want.err(),
    }
}

/// Whether a call gives what it is to give. No piece is empty.
fn is_as_said<F: Folder>(alloc: Global, folder: &mut F, call: Call) -> bool {
    match call {
        Call::Next(file, want) => gives(alloc, folder, file, want),
        Call::Put(file, piece, want) => {
            !piece.is_empty() && folder.put(alloc, file, piece.as_bytes()) == want
        }
    }
}

/// The number of the first call that gives something else.
fn first_other<F: Folder>(alloc: Global, folder: &mut F, calls: &[Call]) -> Option<usize> {
    for at in 0..calls.len() {
        if !is_as_said(alloc, folder, calls[at]) {
            return Some(at);
        }
    }
    None
}

/// Calls of a folder in memory with two texts of config.csv, of which the first counts, and one of feed.csv. Its second read
/// fails, and its second put.
const CALLS_IN_MEMORY: [Call; 9] = [
    Call::Next(File::Config, Ok("abcd")),
    Call::Next(File::Config, Err(Failed)),
    Call::Next(File::Config, Ok("e")),
    Call::Next(File::Config, Ok("")),
    Call::Next(File::Flights, Ok("")),
    Call::Next(File::Feed, Ok("1")),
    Call::Put(File::Journal, "0,batch\n", Ok(8)),
    Call::Put(File::SolRotations, "lost\n", Err(Failed)),
    Call::Put(File::Journal, "0,move\n", Ok(7)),
];

/// Such a folder.
fn folder_in_memory(alloc: Global) -> Result<MemFolder, Fail> {
    let mut inputs = Vec::new(alloc);
    for (file, text) in [
        (File::Config, "abcde"),
        (File::Config, "xyz"),
        (File::Feed, "1"),
    ] {
        inputs.push((file, Vec::from_slice(alloc, text.as_bytes())?))?;
    }
    Ok(MemFolder::new(inputs, vec![in alloc; 2u64]?, vec![in alloc; 2u64]?))
}

#[test]
fn a_folder_in_memory_gives_its_texts_and_keeps_what_is_put(rt: HostRuntime) -> Result<(), Fail> {
    let alloc = rt.alloc();
    let mut folder = folder_in_memory(alloc)?;
    folder.fail_place();
    assert_eq!(rt; folder.place(alloc, "in", "out"), Err(Failed));
    assert_eq!(rt; folder.place(alloc, "in", "out"), Ok(()));
    assert_eq!(rt; first_other(alloc, &mut folder, &CALLS_IN_MEMORY), None);
    let journal = folder.written(File::Journal);
    assert_eq!(rt; journal, b"0,batch\n0,move\n".as_slice());
    assert!(rt; folder.written(File::SolRotations).is_empty());
    Ok(())
}

#[test]
fn a_sink_keeps_what_is_put(rt: HostRuntime) -> Result<(), Fail> {
    let alloc = rt.alloc();
    let mut sink = MemSink::new(vec![in alloc; 1u64]?);
    assert_eq!(rt; sink.put(alloc, b"lost\n"), Err(Failed));
    assert_eq!(rt; sink.put(alloc, b"cost 0\n"), Ok(7));
    assert_eq!(rt; sink.written(), b"cost 0\n".as_slice());
    assert_eq!(rt; HostSink::new(rt).put(alloc, b"."), Ok(1));
    Ok(())
}

/// What is done with files of the host, or is to be found there.
#[derive(Clone, Copy)]
enum Step {
    /// A directory is made.
    Make(&'static str),
    /// A file has an old text.
    Old(&'static str),
    /// A name is made that leads to another one.
    Link(&'static str, &'static str),
    /// A new folder, whose input and output are these directories, of which the journal is read and three files are outputs, is
    /// called so, and then these files are settled, with these answers.
    Call(&'static str, &'static str, &'static [Call], &'static [(File, bool)]),
    /// A file has this text, or there is none.
    Has(&'static str, Option<&'static str>),
    /// There is no such directory.
    Lacks(&'static str),
    /// A directory goes with all that is in it.
    Remove(&'static str),
}

/// Asks such a folder, and whether it gives what it is to give.
fn is_called(
    rt: HostRuntime,
    input: &str,
    output: &str,
    calls: &[Call],
    settles: &[(File, bool)],
) -> bool {
    let alloc = rt.alloc();
    let outputs = [File::SolRotations, File::SolItineraries, File::Journal];
    let mut folder = HostFolder::new(rt, alloc).with_files(&[File::Journal], &outputs);
    if folder.place(alloc, input, output).is_err() {
        return false;
    }
    if first_other(alloc, &mut folder, calls).is_some() {
        return false;
    }
    for at in 0..settles.len() {
        let (file, is_settled) = settles[at];
        if folder.settle(alloc, file, true) != is_settled {
            return false;
        }
    }
    true
}

/// Whether a file has this text, or is not there.
fn has_text(rt: &HostRuntime, path: &str, want: Option<&str>) -> bool {
    match fs::read_to_string(rt, path) {
        Ok(text) => Some(text.as_str()) == want,
        Err(_) => want.is_none(),
    }
}

/// Does a step, and whether all is as it is to be.
fn is_done(rt: HostRuntime, step: Step) -> bool {
    match step {
        Step::Make(directory) => fs::create_dir_all(&rt, directory).is_ok(),
        Step::Old(path) => fs::write(&rt, path, "old\n").is_ok(),
        Step::Link(path, to) => symlink(&rt, to, path).is_ok(),
        Step::Call(input, output, calls, settles) => is_called(rt, input, output, calls, settles),
        Step::Has(path, want) => has_text(&rt, path, want),
        Step::Lacks(directory) => fs::metadata(&rt, directory).is_err(),
        Step::Remove(directory) => fs::remove_dir_all(&rt, directory).is_ok(),
    }
}

/// The first step of some that does not go as it is to.
fn first_undone(rt: HostRuntime, steps: &[Step]) -> Option<usize> {
    for at in 0..steps.len() {
        if !is_done(rt, steps[at]) {
            return Some(at);
        }
    }
    None
}

/// What a folder wrote in a directory of its input, which holds that of its output, is there to be read.
const WRITTEN: [Step; 5] = [
    Step::Call(
        "folder_of_a_test",
        "folder_of_a_test/out",
        &[
            Call::Put(File::SolRotations, "a\n", Ok(2)),
            Call::Put(File::Journal, "b\n", Ok(2)),
            Call::Put(File::Journal, "c\n", Ok(2)),
        ],
        &[],
    ),
    Step::Call(
        "folder_of_a_test",
        "folder_of_a_test/out",
        &[
            Call::Next(File::SolRotations, Ok("a\n")),
            Call::Next(File::SolRotations, Ok("")),
            Call::Next(File::SolItineraries, Err(Failed)),
            Call::Next(File::Config, Err(Failed)),
            Call::Next(File::Feed, Ok("")),
            Call::Next(File::Journal, Ok("")),
        ],
        &[],
    ),
    Step::Call(
        "folder_of_a_test/out",
        "folder_of_a_test/out",
        &[
            Call::Next(File::Journal, Ok("b\nc\n")),
            Call::Put(File::Journal, "d\n", Ok(2)),
        ],
        &[(File::Journal, true)],
    ),
    Step::Call(
        "folder_of_a_test/out",
        "folder_of_a_test/out",
        &[
            Call::Next(File::SolRotations, Ok("")),
            Call::Next(File::Journal, Ok("d\n")),
        ],
        &[],
    ),
    Step::Remove("folder_of_a_test"),
];

#[test]
fn the_host_reads_what_it_wrote(rt: HostRuntime) {
    assert_eq!(rt; first_undone(rt, &WRITTEN), None);
}

/// The first put empties what an earlier run left in the outputs, and in no other file.
const EMPTIED_BY_PUT: [Step; 10] = [
    Step::Make("emptied_by_put"),
    Step::Old("emptied_by_put/sol_rotations.csv"),
    Step::Old("emptied_by_put/journal.csv"),
    Step::Old("emptied_by_put/position.csv"),
    Step::Call(
        "other",
        "emptied_by_put",
        &[Call::Put(File::SolRotations, "a\n", Ok(2))],
        &[],
    ),
    Step::Has("emptied_by_put/sol_rotations.csv", Some("a\n")),
    Step::Has("emptied_by_put/sol_itineraries.csv", None),
    Step::Has("emptied_by_put/journal.csv", Some("")),
    Step::Has("emptied_by_put/position.csv", Some("old\n")),
    Step::Remove("emptied_by_put"),
];

#[test]
fn the_first_put_empties_the_outputs_of_an_earlier_run(rt: HostRuntime) {
    assert_eq!(rt; first_undone(rt, &EMPTIED_BY_PUT), None);
}

/// Where nothing is written, the end of the run empties them, and makes no directory.
const EMPTIED_AT_THE_END: [Step; 12] = [
    Step::Make("emptied_at_the_end"),
    Step::Old("emptied_at_the_end/sol_rotations.csv"),
    Step::Old("emptied_at_the_end/journal.csv"),
    Step::Old("emptied_at_the_end/position.csv"),
    Step::Call(
        "other",
        "emptied_at_the_end",
        &[],
        &[
            (File::SolRotations, true),
            (File::SolItineraries, true),
            (File::Journal, true),
            (File::Position, true),
        ],
    ),
    Step::Has("emptied_at_the_end/sol_rotations.csv", Some("")),
    Step::Has("emptied_at_the_end/sol_itineraries.csv", None),
    Step::Has("emptied_at_the_end/journal.csv", Some("")),
    Step::Has("emptied_at_the_end/position.csv", Some("old\n")),
    Step::Remove("emptied_at_the_end"),
    Step::Call(
        "other",
        "emptied_at_the_end",
        &[],
        &[(File::SolRotations, true)],
    ),
    Step::Lacks("emptied_at_the_end"),
];

#[test]
fn a_run_that_writes_nothing_is_settled(rt: HostRuntime) {
    assert_eq!(rt; first_undone(rt, &EMPTIED_AT_THE_END), None);
}

/// One output can't be emptied, since it is a directory.
const NOT_EMPTIED: [Step; 7] = [
    Step::Make("not_emptied"),
    Step::Old("not_emptied/journal.csv"),
    Step::Make("not_emptied/sol_itineraries.csv"),
    Step::Call(
        "other",
        "not_emptied",
        &[
            Call::Put(File::SolRotations, "a\n", Ok(2)),
            Call::Put(File::SolItineraries, "b\n", Err(Failed)),
        ],
        &[
            (File::SolRotations, true),
            (File::SolItineraries, false),
            (File::Journal, true),
        ],
    ),
    Step::Has("not_emptied/sol_rotations.csv", Some("a\n")),
    Step::Has("not_emptied/journal.csv", Some("")),
    Step::Remove("not_emptied"),
];

#[test]
fn an_output_that_cannot_be_emptied_fails_no_other(rt: HostRuntime) {
    assert_eq!(rt; first_undone(rt, &NOT_EMPTIED), None);
}

/// One output was an input too.
const READ_BEFORE: [Step; 8] = [
    Step::Make("read_before"),
    Step::Old("read_before/sol_rotations.csv"),
    Step::Old("read_before/journal.csv"),
    Step::Call(
        "read_before",
        "read_before",
        &[
            Call::Next(File::Journal, Ok("old\n")),
            Call::Put(File::SolItineraries, "b\n", Ok(2)),
        ],
        &[(File::Journal, true)],
    ),
    Step::Has("read_before/sol_rotations.csv", Some("")),
    Step::Has("read_before/sol_itineraries.csv", Some("b\n")),
    Step::Has("read_before/journal.csv", Some("old\n")),
    Step::Remove("read_before"),
];

#[test]
fn an_output_that_was_read_is_not_emptied(rt: HostRuntime) {
    assert_eq!(rt; first_undone(rt, &READ_BEFORE), None);
}

/// The same by other words for one directory, before it was read and after; and a file that leads to the input.
const READ_BY_ANOTHER_NAME: [Step; 14] = [
    Step::Make("by_another_name/out"),
    Step::Old("by_another_name/journal.csv"),
    Step::Link("by_another_name/here", "."),
    Step::Call(
        "by_another_name",
        "by_another_name/out/../",
        &[Call::Put(File::SolItineraries, "b\n", Ok(2))],
        &[(File::Journal, true)],
    ),
    Step::Has("by_another_name/journal.csv", Some("old\n")),
    Step::Call(
        "by_another_name",
        "by_another_name/here",
        &[
            Call::Next(File::Journal, Ok("old\n")),
            Call::Put(File::Journal, "c\n", Ok(2)),
        ],
        &[],
    ),
    Step::Has("by_another_name/journal.csv", Some("old\n")),
    Step::Has("by_another_name/journal.csv.new", Some("c\n")),
    Step::Link("by_another_name/out/sol_rotations.csv", "../journal.csv"),
    Step::Call(
        "by_another_name",
        "by_another_name/out",
        &[Call::Put(File::SolRotations, "d\n", Ok(2))],
        &[(File::SolRotations, true), (File::Journal, true)],
    ),
    Step::Has("by_another_name/journal.csv", Some("old\n")),
    Step::Has("by_another_name/out/sol_rotations.csv", Some("d\n")),
    Step::Has("by_another_name/out/sol_rotations.csv.new", None),
    Step::Remove("by_another_name"),
];

#[test]
fn an_output_that_is_an_input_by_another_name_is_not_emptied(rt: HostRuntime) {
    assert_eq!(rt; first_undone(rt, &READ_BY_ANOTHER_NAME), None);
}
