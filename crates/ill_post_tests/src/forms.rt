//! Reads transactions and actions from their words.

use ill_saved::Action;
use ill_session_kit::words::{Word, texts};
use ill_values::{Day, TxnId};
use ill_words::words::{deed, wish};
use std::alloc::Global;

/// Reads the transaction `GROUP TRANSACTION`. Returns it, and the words after it.
pub fn txn_before(alloc: Global, words: &[Word]) -> Option<(TxnId, &[Word])> {
    let [group, transaction, others @ ..] = words else {
        return None;
    };
    let (group, transaction) = (group.text.as_bytes(), transaction.text.as_bytes());
    Some((TxnId::new(alloc, group, transaction).ok()?, others))
}

/// Returns the action that `words` encode: a deed after its day, or a wish.
pub fn action(alloc: Global, words: &[Word]) -> Option<Action> {
    let (first, others) = words.split_first()?;
    match Day::read(first.text.as_bytes()) {
        Ok(today) => {
            let deed = deed(&bytes(alloc, others)?, Some(today))?;
            Some(Action::Deed(deed, today))
        }
        Err(_) => Some(Action::Wish(wish(alloc, &bytes(alloc, words)?).ok()??)),
    }
}

/// Returns the bytes of the words.
fn bytes(alloc: Global, words: &[Word]) -> Option<Vec<&[u8]>> {
    let texts = texts(alloc, words)?;
    texts.iter().map(|text| text.as_bytes()).collect(alloc).ok()
}
