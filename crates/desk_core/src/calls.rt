//! What the desk's telling does.

ghost use Rattle.std.specs.Prelude.{◌≡◌, ◌≤◌, List as Items, length, drop, IfOk, OnOk, OnErr};
ghost use Rattle.desk_model.specs.declared.answer.Entry.{Entry as Record};
ghost use Rattle.desk_model.specs.States.{opening};
ghost use Rattle.desk_model.specs.Histories.{IsLegal};
ghost use Rattle.desk_core.specs.Recorded.{Recorded};
ghost use Rattle.live_board.specs.Histories.{history};
ghost use Rattle.live_board.specs.Watched.{AreRising};
ghost use Rattle.live_board.specs.Words.{told_by, stands_for, IsShown};
ghost use Rattle.desk_core.specs.Posts.{posted, HasTold};
ghost use Rattle.desk_core.specs.Sights.{HaveLines};
ghost use Rattle.desk_core.specs.Told.{told_to};
ghost use Rattle.desk_model.specs.Views.{AreSeen};

use crate::board_telling::BoardTelling;
use crate::lines::seen_lines;
use crate::posted::Posted;
use crate::sight::Sight;
use crate::telling::Telling;
use crate::{Book, Entry};
use desk_data::NoMem;
use desk_model::View;
use live_board::{Naming, Note, Teller, Viewer};
use std::alloc::Global;
use std::sync::Wait;
use turn_book::{Pass, Turn};

impl<J: Naming, R: Wait + Drop> BoardTelling<J, R> {
    /// Of a board on a book whose journal is empty, and to which nothing was told.
    pub fn new(teller: Teller<Sight, Posted, J, R>) -> BoardTelling<J, R>
        requires none { length (history (told_by teller)) ≡ 0 }
        requires shown { IsShown posted teller }
        ensures { told_to result ≡ told_by teller }
    {
        BoardTelling { teller, told: 0 }
    }

    /// Publishes the entries of a legal history behind those that are published, which are then `count`. The only error is out
    /// of memory, and then nothing more is published.
    fn publish(&mut self, entries: &[Entry], count: u32) -> Result<(), NoMem>
        requires { (B : Recorded) × (h : Items Record) × HasTold B h (told_to self.old) × IsLegal (opening B.opening) h × (entries.now ≡ drop self.old.told h) × (count ≡ length h) }
        ensures told { (B : Recorded) (h : Items Record) → HasTold B h (told_to self.old) → entries.now ≡ drop self.old.told h → HasTold B h (told_to self.new) }
        ensures all { OnOk result ((B : Recorded) (h : Items Record) → HasTold B h (told_to self.old) → entries.now ≡ drop self.old.told h → history (told_to self.new) ≡ h) }
        ensures none { OnErr result (told_to self.new ≡ told_to self.old) }
    {
        if entries.is_empty() {
            return Ok(());
        }
        let Ok(()) = self.teller.tell(entries) else {
            return Err(NoMem);
        };
        self.told = count;
        Ok(())
    }

    /// Publishes the rest of the book's journal. The only error is out of memory, and then nothing more is published.
    pub fn tell_rest(&mut self, book: &Book) -> Result<(), NoMem>
        requires told { (B : Recorded) × (B.opening ≡ book.now.opening) × HasTold B book.now.journal (told_to self.old) }
        ensures told { (B : Recorded) → HasTold B book.now.journal (told_to self.old) → HasTold B book.now.journal (told_to self.new) }
        ensures all { OnOk result (history (told_to self.new) ≡ book.now.journal) }
        ensures none { OnErr result (told_to self.new ≡ told_to self.old) }
    {
        let count = book.entries();
        let (_, rest) = book.journal().split_at(self.told as usize);
        self.publish(rest, count)
    }

    /// Stands for what is published now.
    pub fn note(&self) -> Note<Sight, J>
        ensures { stands_for result ≡ told_to self.now }
    {
        self.teller.note()
    }

    /// Publishes the rest of the book's journal, has the viewer learn of that and see once more, and gives what is reported of
    /// what was seen: the view of each of its notes, 63 at most, that has fewer entries than the whole journal, and that of the whole.
    /// The only error is out of memory.
    pub fn end(
        self,
        alloc: Global,
        book: &Book,
        viewer: Viewer<Sight, Posted, J>,
        notes: &[Note<Sight, J>],
    ) -> Result<Vec<View>, NoMem>
        requires told { (B : Recorded) × (B.opening ≡ book.now.opening) × HasTold B book.now.journal (told_to self) }
        requires rising { AreRising stands_for notes.now }
        requires few { length notes.now ≤ 63 }
        ensures seen { IfOk result (λ lines. AreSeen (opening book.now.opening) book.now.journal lines.items) }
        ensures each { IfOk result (λ lines. HaveLines (opening book.now.opening) book.now.journal (λ n. history (stands_for n)) notes.now lines.items) }
    {
        let mut telling = self;
        let mut viewer = viewer;
        telling.tell_rest(book)?;
        let note = telling.note();
        viewer.learn(telling.note());
        // What it then sees is the view of that note, since nothing later is published.
        let _last = viewer.see();
        seen_lines(alloc, notes, &note)
    }
}

impl<J: Naming, R: Wait + Drop> Telling for BoardTelling<J, R> {
    ghost use Rattle.std.specs.Prelude.{◌≡◌};
    ghost use Rattle.turn_book.proofs.Prefixes.{prefix_trans};
    ghost use Rattle.live_board.specs.Histories.{history};
    ghost use Rattle.desk_core.specs.Posts.{HasTold};
    ghost use Rattle.desk_core.specs.Told.{told_to};

    ghost can = { λ x B h. HasTold B h (told_to x) };

    ghost told = { λ x B h. history (told_to x) ≡ h };

    ghost stays = { λ x y. told_to y ≡ told_to x };

    fn tell_more<W: Wait>(
        &mut self,
        rt: &W,
        alloc: Global,
        turn: &Turn<Book>,
        pass: &mut Pass<Book>,
    ) -> Result<(), NoMem> {
        let items = turn.look(rt, alloc, pass, self.told)?;
        let count = pass.seen();
        self.publish(items.as_slice(), count)
    }

    ghost longer = { λ x B h g p can. (can.0, prefix_trans (history (told_to x)) h g can.1 p) };
}
