//! Lines, words and numbers: how every text is cut, and how texts are put together.
//!
//! * `text_part`: a part of a text with the place where it starts.
//! * `cut_lines`: the lines of a text.
//! * `cut_words`: blanks, and the words of a line.
//! * `digits`: the form of numbers.
//! * `line_cursor`: the lines that are left to read, with their numbers.
//! * `line_numbers`: the words of a line between single spaces, and the numbers that they are.
//! * `growing_text`: `Text`, which grows at its end as words and numbers are put there.
//! * `row_texts`: the rows of a matrix, a line each.
//!
//! Only `Text` takes memory; what is cut stays where it stands. The definitions stand in `specs/`.
#![tactic(auto)]

mod cut_lines;
mod cut_words;
mod digits;
mod growing_text;
mod line_cursor;
mod line_numbers;
mod row_texts;
mod text_part;

pub use cut_lines::{TextLines, lines};
pub use cut_words::{TextWords, is_blank, words};
pub use digits::read_number;
pub use growing_text::Text;
pub use line_cursor::LineCursor;
pub use line_numbers::{cut_word, fill_numbers, number_to, read_points};
pub use row_texts::put_rows;
pub use text_part::TextPart;
