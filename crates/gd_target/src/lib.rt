//! The targets of requests: what they name, and the members of their queries.
#![tactic(auto)]

mod cuts;
mod fault;
mod laws;
mod number;
mod query;
mod resource;
mod written;

pub use cuts::{cut, past};
pub use fault::RequestFault;
pub use laws::targets_read_back;
pub use number::number_of;
pub use query::{QueryMember, one_more, query_of, query_value};
pub use resource::{Resource, download_of, named_by};
pub use written::{put_both, put_delta, put_download, put_target};
