//! Messages that are among the news already.

ghost use Rattle.std.specs.Prelude.{◌≡◌};
ghost use Rattle.ill_news.specs.News.{is_same, is_printed};

use ill_values::Apdu;

/// Returns true if `apdu` is among `news`.
pub(crate) fn is_printed(news: &[Apdu], apdu: &Apdu) -> bool
    ensures { result ≡ is_printed news.now apdu.now }
{
    news.iter().any(|other| is_same(other, apdu))
}

/// Returns true if `one` and `other` have one transaction and one number.
fn is_same(one: &Apdu, other: &Apdu) -> bool
    ensures { result ≡ is_same one.now other.now }
{
    one.txn == other.txn && one.number == other.number
}
