// The XC-MISC extension: the bytes of its three requests and the fields of its three replies.
//
// A client that has used up its ids asks the server for more by this extension. Requests are
// written to the start of an output that the caller lends; ids of a list go to a lent room. A
// refusal leaves both as they were. Nothing is kept.
#![tactic(auto)]

mod reply;
mod request;

pub use reply::{
    GetVersionReply, GetXIDListReply, GetXIDRangeReply, get_version_reply, get_xid_list_reply,
    get_xid_range_reply,
};
pub use request::{get_version_request, get_xid_list_request, get_xid_range_request};
