//! Literal rows, each a law that is proved by computing.
#![tactic(auto, unfolding(wire_text::specs::Frames::front, wire_text::specs::Frames::split_up_to, wire_text::specs::Frames::split, wire_text::specs::Wire::uint32, wire_text::specs::Wire::string, wire_text::specs::Wire::announced_len, wire_core::specs::Fields::uint32_at, wire_core::specs::Fields::uint64_at, wire_core::specs::Fields::string_len, wire_core::specs::Fields::string_at, key_blob::specs::AddedKeys::blob_fields_at, key_blob::specs::AddedKeys::certificate_blob_at, key_blob::specs::AddedKeys::blob_at, key_blob::specs::AddedKeys::added_key_at, key_blob::specs::AddedKeys::private_at, key_blob::specs::KeyTypes::form_named, key_blob::specs::Reading::field_at, key_blob::specs::Reading::fields_at, key_blob::specs::Reading::after_fields, key_blob::specs::Reading::form_at, agent_msg::specs::Reading::request_of_number, agent_msg::specs::Reading::request_of, agent_msg::specs::Requests::session_bind, schedule_text::specs::Steps::step_line, core::specs::Fmt::digits, hex::specs::Hex::encode_with, constraint_rec::specs::Constraints::restrict_destination, constraint_rec::specs::Reading::kind_at, constraint_rec::specs::Reading::contents_at, constraint_rec::specs::Reading::next_at, constraint_rec::specs::Reading::terms_up_to, constraint_rec::specs::Reading::terms_of, agent_msg::specs::Reading::is_addition))]

ghost use Rattle.std.specs.Prelude.{◌≡◌};
ghost use Rattle.record_world.specs.Rows.{add_record, add_text, bad_record, bad_text, child_record, child_text, lock_record, lock_text};

/// A passphrase is recorded by its number.
pub fn a_lock_is_numbered()
    ensures recorded { lock_record ≡ lock_text }
{}

/// An addition is recorded where it is whole, with zero bytes for its secret.
pub fn an_addition_is_blanked()
    ensures recorded { add_record ≡ add_text }
{}

/// Of a bad length its four bytes are recorded, and nothing behind it.
pub fn a_bad_length_is_cut()
    ensures recorded { bad_record ≡ bad_text }
{}

/// A child's bytes are recorded as they come, and it is held once.
pub fn a_child_is_held_once()
    ensures recorded { child_record ≡ child_text }
{}
