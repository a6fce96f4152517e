//! The words and the forms of lines, whatever they stand for. The forms are a table: each kind of line is a list of fields, and a
//! field is a fixed text and a value. A line has the form of a kind if and only if it is the text of a proper line of that kind, and
//! no text is that of two lines. What the words name, and which line may follow which, is left to others.
#![tactic(auto)]

pub mod cut;
pub mod feed;
pub mod form;
pub mod part;
pub mod scan;
pub mod table;
mod value;
pub mod word;
