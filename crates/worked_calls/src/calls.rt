// The calls by their names.
use crate::{
    block_patches, blocks, changes, differences, holes, messages, patches, pointers, policies,
    sealing, texts, values,
};
use n32_values::Node;
use std::alloc::Global;
use worked_rows::{Args, Calls, Given};

/// The calls of values, messages and blocks.
#[derive(Clone, Copy)]
pub struct ClearCalls;

impl Calls for ClearCalls {
    fn answer_call(
        &self,
        alloc: Global,
        name: &str,
        args: Args<'_>,
        given: &Given,
    ) -> Option<Node> {
        value_call(alloc, name, args, given)
    }
}

// Values, pointers and patches.
fn value_call(alloc: Global, name: &str, args: Args<'_>, given: &Given) -> Option<Node> {
    match name {
        "read_doc" => values::read_doc_call(alloc, given),
        "doc_text" => values::doc_text_call(alloc, given),
        "text_length" => values::text_length_call(alloc, given),
        "depth" => values::depth_call(alloc, given),
        "read_hex64" => values::read_hex64_call(args),
        "hex64_text" => values::hex64_text_call(alloc, args),
        "read_plmn" => values::read_plmn_call(alloc, args),
        "base64url_text" => values::base64url_text_call(alloc, given),
        "read_base64url" => values::read_base64url_call(alloc, args),
        "put_member" => changes::put_member_call(alloc, args),
        "write_member" => changes::write_member_call(alloc, args),
        "take_member" => changes::take_member_call(alloc, args),
        "insert_item" => changes::insert_item_call(alloc, args),
        "write_item" => changes::write_item_call(alloc, args),
        "take_item" => changes::take_item_call(alloc, args),
        "doc_list" => changes::doc_list_call(alloc, args),
        "fits" => texts::fits_call(args, given),
        "read_pointer" => pointers::read_pointer_call(alloc, args),
        "pointer_text" => pointers::pointer_text_call(alloc, args),
        "is_prefix" => pointers::is_prefix_call(given),
        "find" => pointers::find_call(alloc, args, given),
        "read_ops" => patches::read_ops_call(alloc, args),
        "ops_count" => patches::ops_count_call(given),
        "apply" => patches::apply_call(alloc, args, given),
        "apply_depth" => patches::apply_depth_call(alloc, args, given),
        "places" => holes::places_call(alloc, args, given),
        "fill" => holes::fill_call(alloc, args, given),
        "has_hole_spelling" => holes::has_hole_spelling_call(args),
        _ => message_call(alloc, name, args, given),
    }
}

// Messages and policies.
fn message_call(alloc: Global, name: &str, args: Args<'_>, given: &Given) -> Option<Node> {
    match name {
        "read_policy" => policies::read_policy_call(alloc, args),
        "is_policy" => policies::is_policy_call(given),
        "same_policy" => policies::same_policy_call(alloc, given),
        "mapping_of" => policies::mapping_of_call(given),
        "is_secret" => policies::is_secret_call(args, given),
        "is_secret_segment" => policies::is_secret_segment_call(args, given),
        "is_secret_pair" => policies::is_secret_pair_call(args, given),
        "is_secret_header" => policies::is_secret_header_call(args, given),
        "is_secret_node" => policies::is_secret_node_call(args, given),
        "is_modifiable" => policies::is_modifiable_call(args, given),
        "address_text" => policies::address_text_call(alloc, given),
        "read_message" => messages::read_message_call(alloc, args),
        "message_doc" => messages::message_doc_call(alloc, given),
        "is_whole" => messages::is_whole_call(given),
        "query_pairs" => messages::query_pairs_call(alloc, given),
        "headers" => messages::headers_call(alloc, given),
        "path_segments" => messages::path_segments_call(alloc, given),
        "first_fixed" => differences::first_fixed_call(alloc, args, given),
        _ => block_call(alloc, name, args, given),
    }
}

// Blocks and what is made of them.
fn block_call(alloc: Global, name: &str, args: Args<'_>, given: &Given) -> Option<Node> {
    match name {
        "block_fault" => blocks::block_fault_call(alloc, args, given),
        "read_meta" => blocks::read_meta_call(alloc, given),
        "split" => blocks::split_call(alloc, args, given),
        "split_limit" => blocks::split_limit_call(alloc, args, given),
        "split_length" => blocks::split_length_call(alloc, args, given),
        "split_and_rebuild" => blocks::split_and_rebuild_call(alloc, args, given),
        "read_block" => blocks::read_block_call(alloc, args, given),
        "clear_message" => blocks::clear_message_call(alloc, args, given),
        "fill_message" => blocks::fill_message_call(alloc, args, given),
        "rebuild" => blocks::rebuild_call(alloc, args, given),
        "first_in_clear" => sealing::first_in_clear_call(alloc, args, given),
        "apply_entry" => block_patches::apply_entry_call(alloc, args, given),
        _ => None,
    }
}
