//! Of turn_book.

mod sums;
mod tests;
mod threads;
