//! Laws of saved records: contracts of functions that do nothing.

ghost use Rattle.std.specs.Prelude.{◌≡◌, ℕ, ◌≤◌, List, false, length, Ok, Err};
ghost use Rattle.ill_der.specs.Laws.{IsBytes};
ghost use Rattle.ill_values.specs.declared.apdu.Apdu.{Apdu};
ghost use Rattle.ill_core.specs.declared.refusal.Refusal.{Refusal};
ghost use Rattle.ill_record.specs.declared.side.Side.{Side};
ghost use Rattle.ill_record.specs.declared.side.Action.{Action};
ghost use Rattle.ill_record.specs.Side.{issued_of, is_idle, acts, takes, IsSideTransition, Grows, KeepsRequest, IsAfterTransitions, IsPrefix};
ghost use Rattle.ill_record.specs.Records.{side_encoded, record_at, record_encoding};
ghost use Rattle.ill_record.specs.RecordsV2.{sides_encoding, is_version_1, records_at, AreSides};
ghost use Rattle.ill_record.specs.Ranges.{IsInRange, IsSide};
ghost use Rattle.ill_record.specs.Sides.{SidesOf};

/// Each side that is consistent and in range is read from its encoding. So `decode_record` returns the side that
/// `encode_record` encoded.
pub fn read_again()
    ensures { (side : Side) → IsSide side → record_at (record_encoding side) ≡ Ok side }
{
    ill_values::laws::date_texts();
    ill_values::laws::text_sizes();
    ill_der::laws::read_again();
    ill_der::laws::prefix_or_fault();
}

/// If bytes are read as a side, they are its encoding, and the side is in range. This holds even if the side is not
/// consistent. A side that `record_at` reads is consistent, too.
pub fn encoded()
    ensures side { (bytes : List ℕ) (side : Side) → IsBytes bytes → record_at bytes ≡ Ok side →
        (bytes ≡ record_encoding side) × IsSide side }
    ensures layout { (bytes : List ℕ) (side : Side) → IsBytes bytes → side_encoded bytes ≡ Ok side →
        (bytes ≡ record_encoding side) × IsInRange side }
{
    ill_values::laws::date_texts();
    ill_values::laws::text_sizes();
    ill_der::laws::read_again();
    ill_der::laws::prefix_or_fault();
}

/// Two sides with equal encodings are equal.
pub fn one_side()
    ensures { (s t : Side) → IsSide s → IsSide t → record_encoding s ≡ record_encoding t → s ≡ t }
{
    read_again();
}

/// The record of one side has at most 41,811 bytes, so a store that takes 65,535 takes every such record. A
/// responder has 501 bytes besides at most 255 issued messages of at most 162 bytes each.
pub fn record_is_short()
    ensures { (side : Side) → IsSide side → length (record_encoding side) ≤ 41811 }
{
    ill_values::laws::text_sizes();
    ill_der::laws::longest();
    ill_der::laws::shorter();
}

/// The record of many sides has at most 41,813,039 bytes. So a store that takes `RECORD_LIMIT` takes every record of
/// a desk. It has 39 bytes besides at most 1,000 sides, and each side has two bytes for its length.
pub fn sides_record_is_short()
    ensures { (held : SidesOf) → AreSides held → length (sides_encoding held) ≤ 41813039 }
{
    record_is_short();
}

/// Sides of a desk are read from their encoding. So `decode_record2` returns the sides that `encode_record2` encoded.
pub fn sides_read_again()
    ensures { (held : SidesOf) → AreSides held → records_at (sides_encoding held) ≡ Ok held }
{
    read_again();
    encoded();
    record_is_short();
}

/// If bytes are read as sides, and are no record of version 1, they are the encoding of these sides. One desk may hold
/// the sides together, and each is consistent and in range.
pub fn sides_encoded()
    ensures { (bytes : List ℕ) (held : SidesOf) → IsBytes bytes → is_version_1 bytes ≡ false →
        records_at bytes ≡ Ok held → (bytes ≡ sides_encoding held) × AreSides held }
{
    read_again();
    encoded();
    record_is_short();
}

/// If the sides of two desks have equal encodings, they are equal, and their roles are equal.
pub fn one_sides()
    ensures { (a b : SidesOf) → AreSides a → AreSides b → sides_encoding a ≡ sides_encoding b → a ≡ b }
{
    sides_read_again();
}

/// An action or a delivery keeps the role and the transaction of a side. The old issued messages are a prefix of the
/// new ones.
pub fn rows_grow()
    ensures { (old new : Side) → IsSideTransition old new → Grows old new }
{
    ill_core::laws::requester_issues();
    ill_core::laws::requester_keeps_txn();
    ill_core::laws::responder_issues();
    ill_core::laws::responder_keeps_txn();
}

/// After an action or a delivery, a responder that had taken a request still has it.
pub fn rows_keep_request()
    ensures { (old new : Side) → IsSideTransition old new → KeepsRequest old new }
{
    ill_core::laws::responder_keeps_request();
}

/// No side is idle after an action. A side that is not idle is not idle after a delivery.
pub fn rows_begin()
    ensures acts { (old new : Side) (action : Action) → acts old action ≡ Ok new → is_idle new ≡ false }
    ensures stays { (old new : Side) → IsSideTransition old new → is_idle old ≡ false → is_idle new ≡ false }
{
    ill_core::laws::requester_has_begun();
    ill_core::laws::responder_has_begun();
    rows_keep_request();
}

/// A message that is refused changes nothing.
pub fn refusals_stay()
    ensures { (side : Side) (a : Apdu) (refusal : Refusal) → (takes side a).0 ≡ Err refusal →
        (takes side a).1 ≡ side }
{
    ill_core::laws::requester_is_quiet();
    ill_core::laws::responder_is_quiet();
}

/// If transitions lead from one side to another, the issued messages of the first are a prefix of those of the second.
pub fn follows_issues()
    ensures { (old new : Side) → IsAfterTransitions old new → IsPrefix (issued_of old) (issued_of new) }
{
    rows_grow();
}
