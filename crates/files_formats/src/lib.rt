// Layer 5: what a word of a file may be; the formats as tables; where everything stands in an element file; and the check of a section by its table.
#![tactic(auto)]

mod elements;
mod files;
mod firsts;
mod kinds;
pub mod rows;
mod runs;
mod shapes;

pub use elements::{Column, Edition, LONGEST_FILE, Section, column_at, limit, width};
pub use files::check_section;
pub use kinds::Kind;
pub use runs::check_run;
pub use shapes::Shape;
