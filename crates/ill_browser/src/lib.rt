//! What a browser asks of the desks of a library: the meaning of a request that a web server hands over (CGI, RFC
//! 3875). A request names desks and loans, and opens no file.
#![tactic(auto)]

mod body;
mod fault;
mod field;
pub mod laws;
mod visit;
mod wanted;

pub use body::BODY_LIMIT;
pub use fault::VisitFault;
pub use visit::{Rules, Visit};
pub use wanted::{LoanName, Wanted, read_wanted};
