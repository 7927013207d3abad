//! The elements of a message's array: readers and writers of each layout, and the fault of an array that does not have its layout.
#![tactic(auto)]

mod elements;
mod keys;
mod layouts;
mod layouts_with_args;
mod parts;
mod refusal;

pub use json::Writer;
pub use keys::{Key, are_typed, flag_at, id_at, take_text};
pub use layouts::{
    Answered, KeyedDetails, NamedDetails, NumberedDetails, Reason, Stopped, TwoIds, UriRequest,
    dictionary_text, id_dictionary, id_dictionary_text, id_mode, one_id, text_dictionary, two_ids,
};
pub use layouts_with_args::{
    dictionary_text_args, id_dictionary_text_args, id_keys_args, two_ids_keys_args,
};
pub use parts::{
    begin, close_two, end, open, open_within, put_feature, put_flag, put_flag_option, put_id,
    put_nothing, put_text, put_text_option,
};
pub use refusal::{Refusal, refused};
pub use serde_json::Value;
pub use wamp_ids::{Id, Mode, Text};
pub use wamp_message_types::{MessageFault, RequestKind};
pub use wamp_values::Args;
