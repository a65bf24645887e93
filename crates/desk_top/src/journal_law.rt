//! What a journal is written as is read again.

ghost use Rattle.std.specs.Prelude.{◌≡◌, ℕ, ◌<◌, ◌^◌, Ok, None, List as Items, map};
ghost use Rattle.csv.specs.Writing.{default_writer, row_text};
ghost use Rattle.desk_build.specs.declared.joining.Built.{Built as Joined};
ghost use Rattle.desk_data.specs.Situation.{Situation};
ghost use Rattle.desk_model.specs.declared.answer.Entry.{Entry as Recorded};
ghost use Rattle.desk_model.specs.States.{opening};
ghost use Rattle.desk_model.specs.Histories.{IsLegal, run};
ghost use Rattle.desk_tasks.specs.Play.{story_on, played, Remarks, search_remarks, history_outcome};
ghost use Rattle.desk_journal.specs.Journal.{journal_rows_of};
ghost use Rattle.file_joins.specs.Join.{events_of};
ghost use Rattle.output_texts.specs.Lines.{journal_text, line_text};
ghost use Rattle.desk_top.specs.Named.{CanBeReadBack, asked, fields_at, rows_of_history};

/// The line of an entry is what the crate `csv` writes of its four fields by its default settings.
pub fn lines_are_records()
    ensures { (I : Situation) (number : ℕ) (entry : Recorded) → entry.caller < 2 ^ 64 → line_text I number entry ≡ row_text default_writer (fields_at I number entry) }
{}

/// A written journal reads back. Of a history that is legal from the opening of a day, whose callers
/// are at most 64, whose batches are the first ones of the day in their order, and whose text has at most
/// 268,435,456 bytes: the text is read as the rows of its entries, and these are joined to its events, each
/// with its caller. The day is valid, has names of 1 to 32 bytes, and at most 1,001 batches. The run of a
/// legal history's events is the history; so whoever replays a written journal gets what came of its
/// history: the same status, files and report, and of a history whose report has remarks, as that of a recovery
/// has on how its last search ended, the same files.
pub fn written_journals_read_back()
    ensures rows { (built : Joined) (h : Items Recorded) → CanBeReadBack built.inst built.batches h → journal_rows_of (journal_text built.inst h) ≡ Ok (rows_of_history built.inst h) }
    ensures events { (built : Joined) (h : Items Recorded) → CanBeReadBack built.inst built.batches h → events_of built (rows_of_history built.inst h) ≡ Ok (map asked h) }
    ensures run { (I : Situation) (h : Items Recorded) → IsLegal (opening I) h → run (opening I) (map asked h) ≡ h }
    ensures replayed { (I : Situation) (h : Items Recorded) → IsLegal (opening I) h → played (story_on I (map asked h)) ≡ history_outcome I (search_remarks None) h }
    ensures searched { (I : Situation) (remarks : Remarks) (h : Items Recorded) → IsLegal (opening I) h → (played (story_on I (map asked h))).texts.files ≡ (history_outcome I remarks h).texts.files }
{}
