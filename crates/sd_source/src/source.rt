//! A source is read line by line to its program, or refused at the first line that is wrong, with the least number.
//!
//! `SourceReading.antt` defines what a text is: its logical lines, which are of `sd_line`, are read one after
//! another (`LineReading.antt`, `LinesReading.antt`) by what is known between them, which is of `sd_context`. The limits on
//! nodes stand against the source as a whole (`NodeRefusal.antt`). `read_text` gives exactly that.
mod line_reading;
mod lines_reading;
mod node_limit;
mod prefix;
mod source;

pub use source::read_text;
