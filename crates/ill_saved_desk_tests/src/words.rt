//! Puts the faults and answers of desks into words.

use ill_core::{Refusal, State, Taking};
use ill_der::DerFault;
use ill_saved::DeskFault;
use ill_saved_kit::{Line, store_words, write_record_fault};

/// Writes the words of a fault of a desk whose side is in `state`.
pub fn write_fault(line: &mut Line, fault: DeskFault, state: State) {
    match fault {
        DeskFault::Core(refusal) => line.text(refusal_word(refusal, state)),
        DeskFault::Bytes(fault) => write_bytes_fault(line, fault),
        DeskFault::Saved(fault) => {
            line.text("record ");
            write_record_fault(line, fault);
        }
        DeskFault::Store(fault) => line.text(store_words(fault)),
        DeskFault::Trailing => line.text("trailing"),
        DeskFault::NoSuchMessage => line.text("no-such-message"),
        DeskFault::NotSaved => line.text("not-saved"),
        DeskFault::Exists => line.text("exists"),
        DeskFault::NoRecord => line.text("no-record"),
        DeskFault::OutOfMemory => line.text("memory"),
        DeskFault::NoSuchTransaction => line.text("no-such-transaction"),
        DeskFault::DeskFull => line.text("desk-full"),
    }
}

/// Writes the words of a fault of an APDU, and its place.
fn write_bytes_fault(line: &mut Line, fault: DerFault) {
    let (words, at) = match fault {
        DerFault::Short(at) => ("short at ", at),
        DerFault::Tag(at) => ("tag at ", at),
        DerFault::Length(at) => ("length at ", at),
        DerFault::Field(at) => ("field at ", at),
        DerFault::OutOfMemory => ("memory ", 0),
    };
    line.text(words);
    line.show(&at);
}

/// Returns the word of a refusal in `state`.
fn refusal_word(refusal: Refusal, state: State) -> &'static str {
    match refusal {
        Refusal::OtherTransaction => "other-transaction",
        Refusal::WrongRole => "wrong-role",
        Refusal::NotNow(printed) => word_in(printed, state, "not-now"),
        Refusal::DateEarlier => "date-earlier",
        Refusal::DateNotLater => "date-not-later",
        Refusal::NotDue => "not-due",
        Refusal::NotExpired => "not-expired",
        Refusal::NumbersUsed => "numbers-used",
        Refusal::OutOfMemory => "memory",
    }
}

/// Returns the word of the answer to a message in `state`.
pub fn taking_word(taking: Taking, state: State) -> &'static str {
    match taking {
        Taking::Taken => "taken",
        Taking::Repeat => "repeat",
        Taking::Stale => "stale",
        Taking::Conflict(printed) => word_in(printed, state, "conflict"),
    }
}

/// Returns `word` if the named state `printed` is the state of the side, and else `ANOTHER STATE`.
fn word_in(printed: State, state: State, word: &'static str) -> &'static str {
    if printed == state {
        word
    } else {
        "ANOTHER STATE"
    }
}
