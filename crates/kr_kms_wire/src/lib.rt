//! The lines by which a link over pipes and its plugin ask and answer: each is written by one end
//! and read by the other.
#![tactic(auto)]

mod members;
mod replies;
mod requests;

pub use replies::{Answered, Asked, Reply, ReplyNo, read_reply, reply_line};
pub use requests::{Request, RequestNo, read_request, request_line};
