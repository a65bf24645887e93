//! What a run's end means, for whoever reads it.

ghost use Rattle.std.specs.Prelude.{◌≡◌, [], IfOk};
ghost use Rattle.std.specs.List.{flat_map};
ghost use Rattle.desk_words.specs.Shown.{shown_line};
ghost use Rattle.desk_words.specs.Explained.{IsSilent};

use crate::causes::{causes_of_lines, causes_of_the_whole, section_of, text_of};
use crate::path::faulty_path;
use crate::report::{Fault, Refused, fault_of, first_words, is_damaged, last_words, refusal_of};
use crate::rules::{RULES, Rule, rule_of};
use crate::shown::ShownText;
use crate::usage::USAGE;
use desk_folder::File;
use desk_text::Fields;
use desk_units::NoMem;
use std::alloc::Global;

// What follows a path that could not be read or written.
const READ_FAULT: &str =
    " can't be opened or read: it has to be a file that is there and that you may read.";

const WRITE_FAULT: &str =
    " can't be written: it has to be a file that you may write or make, with room on its disk. Use nothing from this directory.";

const REPORT_FAULT: &str =
    "The report can't be written: standard output is closed or has no room. What the command writes to files is written.";

const DISK_FAULT: &str =
    "journal.bin in OUT can't be read, written or brought to the disk. What it holds stays; once it can, run the same again.";

const DAMAGED: &str = "journal.bin in OUT is damaged, or was written for another day.";

const OTHER: &str =
    "journal.bin in OUT holds another event than this record; take the journal that it was begun with, or another OUT.";

const OTHER_WHOLE: &str = "journal.bin in OUT holds more events than this journal has.";

// What stands before a line's number: comma files are counted in records.
fn place_word(file: File) -> &'static str {
    match file {
        File::Tariff | File::Feed | File::Journal => ", record ",
        _ => ", line ",
    }
}

// Says where the input is refused.
fn say_place(text: &mut ShownText, refused: &Refused<'_>, is_whole: bool) -> Result<(), NoMem> {
    text.say(refused.file.name().as_bytes())?;
    if !is_whole {
        text.say(place_word(refused.file).as_bytes())?;
        text.say(refused.line)?;
    }
    text.say(b": ")
}

// What is wrong with an event that the journal on the disk has otherwise; else the name of the cause.
fn stored_text(cause: &[u8], is_whole: bool) -> &[u8] {
    if cause != b"Other".as_slice() {
        return cause;
    }
    if is_whole {
        OTHER_WHOLE.as_bytes()
    } else {
        OTHER.as_bytes()
    }
}

// Says why a line is refused, which columns it can be, what is allowed, and where that is written.
fn say_refusal(text: &mut ShownText, refused: &Refused<'_>) -> Result<(), NoMem> {
    let is_whole = refused.line == b"0".as_slice();
    let rows = if is_whole {
        causes_of_the_whole(refused.file)
    } else {
        causes_of_lines(refused.file)
    };
    say_place(text, refused, is_whole)?;
    match text_of(rows, refused.cause) {
        Some(sentence) => text.say_line(sentence.as_bytes())?,
        None => text.say_line(stored_text(refused.cause, is_whole))?,
    }
    text.say(b"See \"")?;
    text.say(section_of(refused.file).as_bytes())?;
    text.say_line(b"\" in docs/FORMATS.md.")
}

// Says which path could not be read or written, and more.
fn say_path(text: &mut ShownText, path: Option<&str>, more: &str) -> Result<(), NoMem> {
    if let Some(path) = path {
        text.say(path.as_bytes())?;
        text.say_line(more.as_bytes())?;
    }
    Ok(())
}

// Says what could not be read or written.
fn say_fault(text: &mut ShownText, path: Option<&str>, report: &[u8]) -> Result<(), NoMem> {
    match fault_of(report) {
        Some(Fault::Read(_)) => say_path(text, path, READ_FAULT),
        Some(Fault::Write(_)) => say_path(text, path, WRITE_FAULT),
        Some(Fault::Report) => text.say_line(REPORT_FAULT.as_bytes()),
        Some(Fault::Directories) => text.say_line(b"The directories could not be named."),
        None => Ok(()),
    }
}

// Says which item breaks a rule, by the words after its number.
fn say_item(text: &mut ShownText, rule: &Rule, mut names: Fields<'_>) -> Result<(), NoMem> {
    for word in rule.item.words() {
        text.say(word.as_bytes())?;
        if let Some(name) = names.next() {
            text.say(name)?;
        }
    }
    text.say(b" breaks ")?;
    text.say(rule.number.as_bytes())?;
    text.say(b", ")?;
    text.say(rule.word.as_bytes())?;
    text.say(b". ")?;
    text.say_line(rule.text.as_bytes())
}

// Says that an item, by its words, breaks a rule.
fn say_broken(text: &mut ShownText, start: &str, mut words: Fields<'_>) -> Result<(), NoMem> {
    let Some(number) = words.next() else {
        return Ok(());
    };
    let Some(rule) = rule_of(RULES, number) else {
        return Ok(());
    };
    text.say(start.as_bytes())?;
    say_item(text, rule, words)
}

// The words after `broken` in the first line.
fn after_broken(report: &[u8]) -> Option<Fields<'_>> {
    let mut words = first_words(report)?;
    if words.next()? == b"broken".as_slice() {
        Some(words)
    } else {
        None
    }
}

// The words after `no plan` in the last line.
fn after_no_plan(report: &[u8]) -> Option<Fields<'_>> {
    let mut words = last_words(report)?;
    let first = words.next()?;
    let second = words.next()?;
    if first == b"no".as_slice() && second == b"plan".as_slice() {
        Some(words)
    } else {
        None
    }
}

// The words after `crew` in the last line.
fn after_crew(report: &[u8]) -> Option<Fields<'_>> {
    let mut words = last_words(report)?;
    if words.next()? == b"crew".as_slice() {
        Some(words)
    } else {
        None
    }
}

// Says which rule a plan breaks, and which one its crews.
fn say_verdict(text: &mut ShownText, report: &[u8]) -> Result<(), NoMem> {
    if let Some(words) = after_broken(report) {
        say_broken(text, "The plan breaks a rule: ", words)?;
    }
    if let Some(words) = after_crew(report) {
        say_broken(text, "Its crews break a rule: ", words)?;
    }
    Ok(())
}

// A text of these lines.
fn text_of_lines(alloc: Global, lines: &[&str]) -> Result<ShownText, NoMem>
    ensures { IfOk result (λ text. text ≡ flat_map (λ line. shown_line line.now) lines.now) }
{
    let mut text = ShownText::new(alloc);
    text.say_lines(lines)?;
    Ok(text)
}

// What the end of a run means whose words are a command.
fn end_text(alloc: Global, words: &[String], status: u8, report: &[u8]) -> Result<ShownText, NoMem>
    ensures { IsSilent status → IfOk result (λ text. text ≡ []) }
{
    let mut text = ShownText::new(alloc);
    match status {
        1 => {
            if let Some(words) = after_no_plan(report) {
                say_broken(&mut text, "There is no plan: ", words)?;
            }
        }
        3 => {
            if let Some(refused) = refusal_of(report) {
                say_refusal(&mut text, &refused)?;
            } else if is_damaged(report) {
                text.say_line(DAMAGED.as_bytes())?;
            }
        }
        4 | 5 => {
            let path = faulty_path(alloc, words, report)?;
            say_fault(&mut text, path.as_ref().map(|path| path.as_str()), report)?;
        }
        8 => text.say_line(DISK_FAULT.as_bytes())?,
        7 => say_verdict(&mut text, report)?,
        _ => {}
    }
    Ok(text)
}

/// What the end of a run means, by the words after the program's name, its status and its report: text for standard
/// error, which says the same as the report and more. Of status 2 the words of all commands; of 3 what is wrong with
/// the line that is refused, which columns it can be and what they may have; of 4 and 5 which path could not be read or
/// written; of 8 that the disk failed; of 7 and 1 the rule that is broken first, in a sentence with its names, and of 7 also
/// that of the crews. Of all other statuses nothing.
///
/// What the words and the report have in them is shown as `ShownText` says. A report that this program does not write
/// gets the parts of an explanation that it has, or none. The only error is out of memory.
pub fn explain(
    alloc: Global,
    words: &[String],
    status: u8,
    report: &[u8],
) -> Result<ShownText, NoMem>
    ensures silent { IsSilent status → IfOk result (λ text. text ≡ []) }
    ensures usage { status ≡ 2 → IfOk result (λ text. text ≡ flat_map (λ line. shown_line line.now) USAGE.now) }
{
    if status == 2 {
        return text_of_lines(alloc, USAGE);
    }
    end_text(alloc, words, status, report)
}
