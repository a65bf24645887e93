//! Tests of what no case of desk_rows can say. Walks of an evaluator and of each of its boards by itself: changes that are drawn, some of
//! which are taken back or can be no more, and at times a copy beside or in the place of the first. After each it says what the rules or
//! the prices say of the plan from scratch. And a million changes of one evaluator, what viewers of the desk's own board see, a journal that is
//! full, and what only calls can ask. In `host`, what reaches the host: the folder, the disk, records on it, and fields that no file has. In `live`
//! and `turn`, threads over the board and over the lock.
//!
//! There is no code here but tests: a crate with tests is proved twice, so they stand in a crate of their own, and in one, since each
//! crate loads anew what it depends on. One walk serves all boards. A board is handed its changes before the plan has them, as an evaluator
//! does. What a run of the program can show is a case of desk_rows instead. The days are read from texts, as those of a run are. A
//! table of like cases is one test, and a row that fails names itself. A test asserts plain values, which a helper
//! gives: what owns a day or a board lives no longer than that call. Expected values were worked out by hand.
//!
//! What a call, a join, a close, a tell and a look of threads promise is proved. Tested is what no clause says: that threads which make a hundred
//! calls each come to an end, that a third can look meanwhile, that the replies and the places that each was given are those of the book that
//! comes back, one by one, and that a viewer sees what is told. What the threads do is in `threads`.
#![tactic(auto)]

#[cfg(test)]
mod host;
#[cfg(test)]
mod live;
#[cfg(test)]
mod tests;
#[cfg(test)]
mod turn;
