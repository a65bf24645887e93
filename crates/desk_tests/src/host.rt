//! Of what reaches the host, and of fields that no file has.

mod disk;
mod folder;
mod records;
mod text;
