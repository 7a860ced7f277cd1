//! Views of the kinds of geometry in Well-Known Binary: each borrows its bytes. A kind is one file: its view, what the
//! view's calls return, and how it is read (`read`). Nothing else makes a view (docs/DECISIONS.md, D5).
#![tactic(auto)]

pub mod any;
pub mod as_written;
pub mod coord;
pub mod counts;
mod ends;
pub mod lent;
pub mod line_string;
pub mod linear_ring;
pub mod multi_line_string;
pub mod multi_point;
pub mod multi_polygon;
pub mod own_srid;
mod part;
pub mod point;
pub mod polygon;
pub mod reserved;
