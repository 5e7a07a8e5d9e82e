// Inside: states as rows of numbers, for those who keep a state and cannot hold a struct.
//
// A row that is no state is read as a state that is not sound, so that every call refuses it by 9
// (`specs/Theorems`).
#![tactic(auto)]

mod state;

pub use state::{
    CONNECTION, THREE, connection, handshake, ids, put_advanced, put_connection, put_filed,
    put_four, put_handshake, put_ids, put_kept, put_polled, put_reader, put_sent, reader,
};
