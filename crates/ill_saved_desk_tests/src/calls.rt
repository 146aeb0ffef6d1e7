//! Reads the first word of a line.

use ill_test_kit::named;

/// The call of a case, or of a family of cases.
#[derive(Clone, Copy)]
pub enum Call {
    /// The call takes bytes.
    Bytes(BytesCall),
    /// The call takes words.
    Words(WordsCall),
    /// The call is of a desk over a file.
    File,
}

/// A call of a desk or of a store that takes bytes.
#[derive(Clone, Copy)]
pub enum BytesCall {
    /// Saves a desk, or the bytes in a store.
    Save,
    /// The desk takes the message that the bytes encode.
    Take,
    /// A message is read from the bytes, and the desk takes the message.
    Hand,
    /// The live sides are compared with the bytes.
    Live,
    /// The released messages are compared with the bytes.
    Messages,
}

/// A call of a desk or of a store that takes words or nothing.
#[derive(Clone, Copy)]
pub enum WordsCall {
    /// Makes a new store.
    Store,
    /// Performs actions over a store that fails from some call on.
    Fuse,
    /// Loads the store.
    Load,
    /// Plans the next call of the store.
    Next,
    /// Creates a desk of one transaction.
    Create,
    /// Starts a desk of one transaction from the committed record.
    Start,
    /// Closes the desk, and gets its store back.
    Close,
    /// Performs an action at the desk.
    Act,
    /// Gives one message of the desk.
    Message,
    /// Restarts the desk from the committed record.
    Restart,
    /// Saves under a plan, and restarts.
    Landing,
    /// A call that only a desk of many transactions has.
    Many(ManyCall),
}

/// A call that only a desk of many transactions has.
#[derive(Clone, Copy)]
pub enum ManyCall {
    /// Creates a desk of many transactions.
    Create,
    /// Starts a desk of many transactions from the committed record.
    Start,
    /// Begins many transactions.
    Begin,
    /// Views each side of the desk.
    Each,
    /// Performs actions over a store that fails from some call on.
    Fuse,
    /// Saves under a plan, and restarts.
    Landing,
}

/// The first words of lines, and the calls that they name.
static CALLS: [(&str, Call); 23] = [
    ("save", Call::Bytes(BytesCall::Save)),
    ("take", Call::Bytes(BytesCall::Take)),
    ("hand", Call::Bytes(BytesCall::Hand)),
    ("live", Call::Bytes(BytesCall::Live)),
    ("messages", Call::Bytes(BytesCall::Messages)),
    (
        "create-many",
        Call::Words(WordsCall::Many(ManyCall::Create)),
    ),
    ("start-many", Call::Words(WordsCall::Many(ManyCall::Start))),
    ("begin", Call::Words(WordsCall::Many(ManyCall::Begin))),
    ("each", Call::Words(WordsCall::Many(ManyCall::Each))),
    ("fuse-many", Call::Words(WordsCall::Many(ManyCall::Fuse))),
    (
        "landing-many",
        Call::Words(WordsCall::Many(ManyCall::Landing)),
    ),
    ("landing", Call::Words(WordsCall::Landing)),
    ("store", Call::Words(WordsCall::Store)),
    ("fuse", Call::Words(WordsCall::Fuse)),
    ("load", Call::Words(WordsCall::Load)),
    ("next", Call::Words(WordsCall::Next)),
    ("create", Call::Words(WordsCall::Create)),
    ("start", Call::Words(WordsCall::Start)),
    ("close", Call::Words(WordsCall::Close)),
    ("act", Call::Words(WordsCall::Act)),
    ("message", Call::Words(WordsCall::Message)),
    ("restart", Call::Words(WordsCall::Restart)),
    ("file", Call::File),
];

impl WordsCall {
    /// Returns true if the call uses up the plan of a desk's store.
    pub fn spends_plan(self) -> bool {
        matches!(
            self,
            WordsCall::Create
                | WordsCall::Start
                | WordsCall::Restart
                | WordsCall::Many(ManyCall::Create | ManyCall::Start)
        )
    }
}

/// Returns the call that `word` names.
pub fn call_of(word: &str) -> Option<Call> {
    named(&CALLS, word)
}
