//! The identifier octets of the types of APDU.

ghost use Rattle.std.specs.Prelude.{◌≡◌};
ghost use Rattle.ill_der.specs.Types.{identifier_of, type_with};

use ill_values::ApduType;

/// Returns the type that has this identifier octet, a constructed application tag (X.690 8.1.2), or `None`.
pub fn type_with(identifier: u8) -> Option<ApduType>
    ensures { result ≡ type_with identifier }
{
    match identifier {
        0x61 => Some(ApduType::IllRequest),
        0x63 => Some(ApduType::Shipped),
        0x64 => Some(ApduType::IllAnswer),
        0x65 => Some(ApduType::ConditionalReply),
        0x66 => Some(ApduType::Cancel),
        0x67 => Some(ApduType::CancelReply),
        0x68 => Some(ApduType::Received),
        0x69 => Some(ApduType::Recall),
        0x6A => Some(ApduType::Returned),
        0x6B => Some(ApduType::CheckedIn),
        0x6C => Some(ApduType::Overdue),
        0x6D => Some(ApduType::Renew),
        0x6E => Some(ApduType::RenewAnswer),
        0x74 => Some(ApduType::Expired),
        _ => None,
    }
}

/// Returns the identifier octet of `apdu_type`.
pub fn identifier_of(apdu_type: ApduType) -> u8
    ensures { result ≡ identifier_of apdu_type }
{
    match apdu_type {
        ApduType::IllRequest => 0x61,
        ApduType::Shipped => 0x63,
        ApduType::IllAnswer => 0x64,
        ApduType::ConditionalReply => 0x65,
        ApduType::Cancel => 0x66,
        ApduType::CancelReply => 0x67,
        ApduType::Received => 0x68,
        ApduType::Recall => 0x69,
        ApduType::Returned => 0x6A,
        ApduType::CheckedIn => 0x6B,
        ApduType::Overdue => 0x6C,
        ApduType::Renew => 0x6D,
        ApduType::RenewAnswer => 0x6E,
        ApduType::Expired => 0x74,
    }
}
