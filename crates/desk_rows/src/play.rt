//! Plays a transcript: runs the desk as its commands say, and puts what each run gave after them.

use crate::gate::{Entrance, HoldingGate};
use crate::heard::Notes;
use crate::lines::{Call, Command, Line, Shown, line_of, unescaped};
use crate::sink::ReportSink;
use crate::texts::{Texts, add_all, last_seen, push_rows, text_of, written_texts};
use crate::told::{push_bytes, push_file, push_front, push_text};
use desk_disk::MemDisk;
use desk_folder::{ALL_FILES, File, MemFolder};
use desk_top::desk_main_heard;
use std::alloc::{AllocError, Global};
use std::sync::Wait;
use std::thread::Threads;

// The calls of the next run that are to fail, the bytes that its sink takes, and the most that a call of its folder gives and takes,
// where that is above 0.
struct Faults {
    place: bool,
    cut: u32,
    next: Vec<u64>,
    put: Vec<u64>,
    report: Vec<u64>,
    room: usize,
    disk: Vec<u64>,
    torn: usize,
}

// Dropped in one call, so that a function that owns one proves it once, and not part by part.
impl Drop for Faults {
    fn drop(self) {
        let Faults {
            place: _,
            cut: _,
            next: _,
            put: _,
            report: _,
            room: _,
            disk: _,
            torn: _,
        } = self;
    }
}

impl Faults {
    ghost use Rattle.desk_disk.specs.FileStates.{HasNothingPending};

    // A folder with these texts, an empty sink, and a disk whose file has these bytes, whose calls fail so. Nothing is pending on it.
    fn outside(
        self,
        alloc: Global,
        inputs: Texts,
        bytes: Vec<u8>,
    ) -> (MemFolder, ReportSink, MemDisk)
        ensures { HasNothingPending result.2.side.file }
    {
        let Faults {
            place,
            cut,
            next,
            put,
            report,
            room,
            disk,
            torn,
        } = self;
        let mut folder = MemFolder::new(inputs, next, put);
        if place {
            folder.fail_place();
        }
        if cut > 0 {
            folder.cut(cut);
        }
        let sink = ReportSink {
            bytes: Vec::new(alloc),
            room,
            fail: report,
            calls: 0,
            faults: 0,
        };
        let mut disk = MemDisk::new(bytes, disk);
        disk.tear(torn);
        (folder, sink, disk)
    }
}

fn no_faults(alloc: Global) -> Faults {
    Faults {
        place: false,
        cut: 0,
        next: Vec::new(alloc),
        put: Vec::new(alloc),
        report: Vec::new(alloc),
        room: usize::MAX,
        disk: Vec::new(alloc),
        torn: 0,
    }
}

/// A transcript that is played.
struct Player {
    alloc: Global,
    /// the texts with which each run begins
    day: Texts,
    /// the texts of the next run that are changed
    changed: Texts,
    faults: Faults,
    /// who waits at the gate of the next run, and for whom
    holds: Vec<(Entrance, Entrance)>,
    /// how the files that the next run writes are given
    shown: Shown,
    /// whether of the views that the next run reports the last one is given alone
    last: bool,
    /// whether what a listener hears of the next run is given
    heard: bool,
    /// what the run before wrote
    written: Texts,
    /// the bytes of the file on the disk, which each run goes on with
    stored: Vec<u8>,
    runs: u64,
    played: Vec<u8>,
}

/// Dropped in one call, so that a function that owns one proves it once, and not part by part.
impl Drop for Player {
    fn drop(self) {
        let Player {
            alloc: _,
            day: _,
            changed: _,
            faults: _,
            holds: _,
            shown: _,
            last: _,
            heard: _,
            written: _,
            stored: _,
            runs: _,
            played: _,
        } = self;
    }
}

/// Plays a transcript over a day, and answers it with what came.
pub(crate) fn play<R: Threads + Wait + Sync>(
    threads: &R,
    alloc: Global,
    day: Texts,
    transcript: &str,
) -> Result<Vec<u8>, AllocError> {
    let mut player = Player {
        alloc,
        day,
        changed: Vec::new(alloc),
        faults: no_faults(alloc),
        holds: Vec::new(alloc),
        shown: Shown::Texts,
        last: false,
        heard: false,
        written: Vec::new(alloc),
        stored: Vec::new(alloc),
        runs: 0,
        played: Vec::new(alloc),
    };
    let is_played = player.play_lines(threads, transcript);
    let played = player.end();
    is_played?;
    Ok(played)
}

// The words of a run; `''` is one of no bytes.
fn words_of(alloc: Global, text: &str) -> Result<Vec<String>, AllocError> {
    let mut words = Vec::new(alloc);
    for word in text.split_whitespace() {
        let word = if word == "''" { "" } else { word };
        words.push(String::from_str(alloc, word)?)?;
    }
    Ok(words)
}

impl Player {
    // What came of all that was played.
    fn end(self) -> Vec<u8> {
        let Player {
            alloc: _,
            day: _,
            changed: _,
            faults: _,
            holds: _,
            shown: _,
            last: _,
            heard: _,
            written: _,
            stored: _,
            runs: _,
            played,
        } = self;
        played
    }

    fn push(&mut self, text: &str) -> Result<(), AllocError> {
        self.played.extend_from_slice(text.as_bytes())
    }

    fn play_lines<R: Threads + Wait + Sync>(
        &mut self,
        threads: &R,
        transcript: &str,
    ) -> Result<(), AllocError> {
        for line in transcript.lines() {
            self.play_line(threads, line)?;
        }
        if self.runs == 0 {
            self.push("nothing was run\n")?;
        }
        Ok(())
    }

    fn play_line<R: Threads + Wait + Sync>(
        &mut self,
        threads: &R,
        line: &str,
    ) -> Result<(), AllocError> {
        let meaning = line_of(line);
        if matches!(meaning, Line::Given) {
            return Ok(());
        }
        self.push(line)?;
        self.push("\n")?;
        match meaning {
            Line::Command(command) => self.obey(threads, command),
            Line::Unknown => self.push("no command\n"),
            Line::Note | Line::Given => Ok(()),
        }
    }

    fn obey<R: Threads + Wait + Sync>(
        &mut self,
        threads: &R,
        command: Command<'_>,
    ) -> Result<(), AllocError> {
        match command {
            Command::Desk(words) => self.run(threads, words),
            Command::Fronts(file, words) => self.run_fronts(threads, file, words),
            Command::Text(file, text) => {
                let text = unescaped(self.alloc, text)?;
                self.change(file, text)
            }
            Command::Rows(file, from, to, row) => {
                let mut text = self.text_now(file)?;
                let row = unescaped(self.alloc, row)?;
                push_rows(&mut text, row.as_slice(), from, to)?;
                self.change(file, text)
            }
            Command::Take(file) => {
                let text = Vec::from_slice(self.alloc, text_of(self.written.as_slice(), file))?;
                self.change(file, text)
            }
            Command::FailPlace => {
                self.faults.place = true;
                Ok(())
            }
            Command::FailDisk(number, torn) => {
                self.faults.disk.push(number)?;
                self.faults.torn = torn;
                Ok(())
            }
            Command::Disk(text) => {
                self.stored = unescaped(self.alloc, text)?;
                Ok(())
            }
            Command::Fail(call, number) => self.fail(call, number),
            Command::Room(room) => {
                self.faults.room = room as usize;
                Ok(())
            }
            Command::Hold(held, other) => {
                self.holds.push((held, other))?;
                Ok(())
            }
            Command::Cut(bytes) => {
                self.faults.cut = bytes;
                Ok(())
            }
            Command::Show(shown) => {
                self.shown = shown;
                Ok(())
            }
            Command::Heard => {
                self.heard = true;
                Ok(())
            }
            Command::Last => {
                self.last = true;
                Ok(())
            }
        }
    }

    // The text of a file as the next run would have it.
    fn text_now(&self, file: File) -> Result<Vec<u8>, AllocError> {
        let is_changed = self.changed.iter().any(|(other, _)| *other == file);
        let texts = if is_changed { &self.changed } else { &self.day };
        Vec::from_slice(self.alloc, text_of(texts.as_slice(), file))
    }

    // Gives a file this text for the next run.
    fn change(&mut self, file: File, text: Vec<u8>) -> Result<(), AllocError> {
        self.changed.retain(|(other, _)| *other != file);
        self.changed.push((file, text))?;
        Ok(())
    }

    fn fail(&mut self, call: Call, number: u64) -> Result<(), AllocError> {
        let numbers = match call {
            Call::Next => &mut self.faults.next,
            Call::Put => &mut self.faults.put,
            Call::Report => &mut self.faults.report,
        };
        numbers.push(number)?;
        Ok(())
    }

    fn run<R: Threads + Wait + Sync>(
        &mut self,
        threads: &R,
        words: &str,
    ) -> Result<(), AllocError> {
        let alloc = self.alloc;
        let words = words_of(alloc, words)?;
        let mut inputs = std::mem::replace(&mut self.changed, Vec::new(alloc));
        add_all(&mut inputs, self.day.as_slice())?;
        let faults = std::mem::replace(&mut self.faults, no_faults(alloc));
        let stored = std::mem::replace(&mut self.stored, Vec::new(alloc));
        let (mut folder, mut sink, mut disk) = faults.outside(alloc, inputs, stored);
        let holds = std::mem::replace(&mut self.holds, Vec::new(alloc));
        let gate = HoldingGate::new(holds.as_slice());
        let mut notes = Notes::new(alloc);
        let status = desk_main_heard(
            threads,
            alloc,
            words.as_slice(),
            &mut folder,
            &mut sink,
            &gate,
            &mut disk,
            &mut notes,
        );
        let came = gate.all_came();
        let (report, heard) = (sink.bytes.as_slice(), notes.lines.as_slice());
        self.tell_run(came, status, report, heard, &folder, disk.bytes())
    }

    // Adds what a run gave, with the bytes of the disk that it left, after whether all came to where its gate holds.
    fn tell_run(
        &mut self,
        came: bool,
        status: u8,
        report: &[u8],
        heard: &[u8],
        folder: &MemFolder,
        stored: &[u8],
    ) -> Result<(), AllocError> {
        if !came {
            self.push("not all came to the gate\n")?;
        }
        self.runs = self.runs.saturating_add(1);
        self.tell(status, report, heard, folder)?;
        self.keep_disk(stored)
    }

    // Runs the desk with a text of one file in the place of the one that these files or the day have, and answers what it gave.
    fn given_by<R: Threads + Wait + Sync>(
        &mut self,
        threads: &R,
        words: &str,
        file: File,
        text: &[u8],
        others: &[(File, Vec<u8>)],
    ) -> Result<Vec<u8>, AllocError> {
        let before = std::mem::replace(&mut self.played, Vec::new(self.alloc));
        let is_run = self.run_with(threads, words, file, text, others);
        let given = std::mem::replace(&mut self.played, before);
        is_run?;
        Ok(given)
    }

    // Runs the desk with this text of one file, and these of others.
    fn run_with<R: Threads + Wait + Sync>(
        &mut self,
        threads: &R,
        words: &str,
        file: File,
        text: &[u8],
        others: &[(File, Vec<u8>)],
    ) -> Result<(), AllocError> {
        let text = Vec::from_slice(self.alloc, text)?;
        self.change(file, text)?;
        add_all(&mut self.changed, others)?;
        self.run(threads, words)
    }

    // Runs the desk with each beginning of a file, and adds what they gave, once for those one after another that gave the same.
    fn run_fronts<R: Threads + Wait + Sync>(
        &mut self,
        threads: &R,
        file: File,
        words: &str,
    ) -> Result<(), AllocError> {
        let alloc = self.alloc;
        let text = self.text_now(file)?;
        let others = std::mem::replace(&mut self.changed, Vec::new(alloc));
        let mut last = Vec::new(alloc);
        self.run_fronts_of(
            threads,
            file,
            words,
            text.as_slice(),
            others.as_slice(),
            &mut last,
        )
    }

    // The same of this text, beside these of others; `last` is what the run before gave.
    fn run_fronts_of<R: Threads + Wait + Sync>(
        &mut self,
        threads: &R,
        file: File,
        words: &str,
        text: &[u8],
        others: &[(File, Vec<u8>)],
        last: &mut Vec<u8>,
    ) -> Result<(), AllocError> {
        let mut from = 0;
        for size in 0..=text.len() {
            let (front, _) = text.split_at(size.min(text.len()));
            let given = self.given_by(threads, words, file, front, others)?;
            if given.as_slice() != last.as_slice() {
                push_front(&mut self.played, from, size, last.as_slice())?;
                from = size;
                *last = given;
            }
        }
        let after = text.len().saturating_add(1);
        push_front(&mut self.played, from, after, last.as_slice())
    }

    // Adds what a run gave, and keeps what it wrote.
    fn tell(
        &mut self,
        status: u8,
        report: &[u8],
        heard: &[u8],
        folder: &MemFolder,
    ) -> Result<(), AllocError> {
        self.push_status(status)?;
        self.push_report(report)?;
        if self.heard {
            push_text(&mut self.played, heard)?;
        }
        for file in ALL_FILES {
            let text = folder.written(file);
            if !text.is_empty() {
                push_file(&mut self.played, file, text, self.shown)?;
            }
        }
        self.shown = Shown::Texts;
        self.last = false;
        self.heard = false;
        self.written = written_texts(self.alloc, folder, &ALL_FILES)?;
        Ok(())
    }

    fn push_status(&mut self, status: u8) -> Result<(), AllocError> {
        let ended = format!(in self.alloc; "status {status}\n")?;
        self.push(ended.as_str())
    }

    // Adds a report, of whose views the last stands alone where that is asked for.
    fn push_report(&mut self, report: &[u8]) -> Result<(), AllocError> {
        if !self.last {
            return push_text(&mut self.played, report);
        }
        let report = last_seen(self.alloc, report)?;
        push_text(&mut self.played, report.as_slice())
    }

    // Adds the bytes of the file on the disk, where it has any, and keeps them.
    fn keep_disk(&mut self, bytes: &[u8]) -> Result<(), AllocError> {
        if bytes.is_empty() {
            return Ok(());
        }
        push_bytes(&mut self.played, bytes)?;
        self.stored = Vec::from_slice(self.alloc, bytes)?;
        Ok(())
    }
}
