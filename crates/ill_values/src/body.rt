//! Tests the type and the fields of an APDU, and returns the due date in them.

ghost use Rattle.std.specs.Prelude.{◌≡◌};
ghost use Rattle.ill_values.specs.Bodies.{is_requesters, is_ill_request, is_shipped, is_end, is_renewal, names_conditions, grant_in, date_in};

use crate::apdu::{AnswerResult, Body};
use crate::day::Day;

impl Body {
    /// Returns true if a requester issues APDUs of this type. A responder issues the others.
    pub fn is_requesters(&self) -> bool
        ensures { result ≡ is_requesters self.now }
    {
        match self {
            Body::IllRequest { .. }
            | Body::ConditionalReply { .. }
            | Body::Cancel
            | Body::Received
            | Body::Renew { .. }
            | Body::Returned => true,
            _ => false,
        }
    }

    /// Returns true for an ILL-Request.
    pub fn is_ill_request(&self) -> bool
        ensures { result ≡ is_ill_request self.now }
    {
        matches!(self, Body::IllRequest { .. })
    }

    /// Returns true for a Shipped.
    pub fn is_shipped(&self) -> bool
        ensures { result ≡ is_shipped self.now }
    {
        matches!(self, Body::Shipped { .. })
    }

    /// Returns true for an APDU that ends the request: a final ILL-Answer, an Expired, a Cancel-Reply yes, or a
    /// Shipped. An ILL-Answer is final if its result is not `Conditional`, `WillSupply` or `HoldPlaced`.
    pub fn is_end(&self) -> bool
        ensures { result ≡ is_end self.now }
    {
        match self {
            Body::IllAnswer { result } => !matches!(
                result,
                AnswerResult::Conditional | AnswerResult::WillSupply | AnswerResult::HoldPlaced
            ),
            Body::CancelReply { yes, .. } => *yes,
            Body::Expired | Body::Shipped { .. } => true,
            _ => false,
        }
    }

    /// Returns true for a Renew-Answer yes.
    pub fn is_renewal(&self) -> bool
        ensures { result ≡ is_renewal self.now }
    {
        matches!(
            self,
            Body::RenewAnswer {
                granted: Some(_),
                ..
            }
        )
    }

    /// Returns true for an ILL-Answer conditional.
    pub fn names_conditions(&self) -> bool
        ensures { result ≡ names_conditions self.now }
    {
        matches!(
            self,
            Body::IllAnswer {
                result: AnswerResult::Conditional
            }
        )
    }

    /// Returns the due date that a Shipped or a Renew-Answer yes grants, and `None` for any other APDU.
    pub fn grant(&self) -> Option<Day>
        ensures { result ≡ grant_in self.now }
    {
        match self {
            Body::Shipped { due } => Some(*due),
            Body::RenewAnswer { granted, .. } => *granted,
            _ => None,
        }
    }

    /// Returns the due date that a Shipped, an Overdue or a Renew-Answer yes states, and `None` for any other APDU.
    pub fn date(&self) -> Option<Day>
        ensures { result ≡ date_in self.now }
    {
        match self {
            Body::Shipped { due } | Body::Overdue { due } => Some(*due),
            Body::RenewAnswer { granted, .. } => *granted,
            _ => None,
        }
    }
}
