//! States the law of replies, as the contract of a function that does nothing.

ghost use Rattle.std.specs.Prelude.{◌≡◌, true, false};
ghost use Rattle.std.specs.List.{list_all};
ghost use Rattle.ill_report.specs.Link.{PlaceShown, place_text};
ghost use Rattle.ill_page.specs.Urls.{is_of_url};

/// The URL of a loan ends no header and no attribute. It has letters, digits and `*-._+%?&=` alone: no control
/// character, no space and no quote.
#[tactic(auto, using(crate::proofs::UrlLemmas::place_of_url))]
pub fn no_url_ends_a_header()
    ensures url { (place : PlaceShown) → list_all is_of_url (place_text place) ≡ true }
    ensures carriage_return { is_of_url 0x0D ≡ false }
    ensures line_feed { is_of_url 0x0A ≡ false }
    ensures space { is_of_url 0x20 ≡ false }
    ensures quote { is_of_url 0x22 ≡ false }
{}
