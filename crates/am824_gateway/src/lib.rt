//! Converts AAF to AM824 and AM824 to AAF, without changing a value or an instant.
#![tactic(auto)]

mod content;
mod gateway;
mod labels;
pub mod laws;
mod packet;
mod piece;
mod rates;
mod scan;
mod skip;

pub use gateway::Gateway;
pub use piece::Piece;
pub use scan::{Scan, ScanFault, Shape, To};
pub use skip::Skip;
