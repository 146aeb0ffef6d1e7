//! The texts of `--help`, whose lines have at most 80 columns: `clap` breaks none.

/// The text below the commands and options in `ill --help`.
pub const ILL: &str = "\
The commands stand in groups:
  for staff             new, act, list, news, loan, note, slip, status, report,
                        figures
  for the exchange      take, send, inbox, outbox, exchange, key
  for over 1,000 loans  shelf, which has commands of its own
  to look inside        verify, show, check, simulate, simulate-desks

A desk is the loans of one library in one role, and it is kept in a file. A
transport, which is a program or a person, carries the messages. `ill COMMAND
--help` explains a command. What follows holds for all of them.

A loan is named by its GROUP and TRANSACTION. These have 1 to 64 characters of
ASCII each, from space to tilde. If one begins with a hyphen, `--` goes before
the arguments. A day is eight digits, as 20250315, of the years 1900 to 9999.
After an option it may have hyphens, as 2025-03-15.

FILE has at most 67,108,864 bytes. Only `new`, `act`, `take`, `inbox` and
`exchange` change it. `show`, `check`, `simulate` and `simulate-desks` read and
write no file. `key` makes or reads KEYFILE, the file of a key, and no other. No
loan depends on FILE.came, FILE.notes or FILE.diary: they may be put away.

Several commands may be started at once on one file. `new`, `act`, `note`,
`take`, `inbox`, `outbox` and `exchange` wait for each other: ten seconds, and
then they end with `store failed`. Each holds the file until it ends, `take`
until its input ends. `list`, `news`, `loan`, `slip`, `status`, `report`,
`figures`, `send` and `verify` wait for nobody.

PATH is the file of a desk, or a folder of desks. A folder's desks come in the
order of their names. They are its regular files, without those that begin with
a dot or lie beside a desk. `ill new --help` names the latter. Of a folder with
a shelf, only the desks of its groups come. With several desks `list`, `news`
and `figures` print a line `PATH:` before each desk that has something to show.
An empty line stands before each such line but the first. Standard error names a
desk that cannot be read, and the others come. It also names a file whose name
is no UTF-8, which counts as `store failed`. The exit status is that of the
first desk that fails.

Only `take`, `key`, `show`, `check`, `simulate` and `simulate-desks` read
standard input. `take`, `show` and `check` read APDUs in the short form, one
after another, up to its end. It may have at most 100,000 of them, each of 359
bytes at most.

A character on which a terminal or an editor may act is shown by its number, as
\\u{202e}. In `list` and `news` lines so is a space at an edge of GROUP or
TRANSACTION or after a space. Only `show` without --json prints each character
as it is.

With --json each loan or message is an object of JSON on a line. It has its
`kind` first, and then the labels of the text in their order, with `_` for a
hyphen. With several desks each object has its PATH in `file`. All fields stand
in docs/ill.schema.json.

With --explain, lines after that of a fault say which word, file or message is
wrong. They say what would be right, too. The option stands before the command,
or after it but before the words of an action or a note. The lines begin with
spaces, and no program may depend on them.

The start of a loan, with the requester's desk in the file `here` and the
responder's in the file `there`:
  $ ill new here requester
  done
  $ ill act here G1 T1 request none Maps
  done PENDING - 1/1
  $ ill send here G1 T1 1 > message
  $ ill new there responder
  done
  $ ill take there < message
  taken IN-PROCESS - 0/0
  $ ill act there G1 T1 --today 20250301 ship +14
  done SHIPPED 20250315 1/1

The exit status, and the line of a fault on standard error after `ill: `:
  0  -                    all went well; help and the version too
  1  -                    refused, or in conflict; standard output says why
  1  exists               FILE or KEYFILE is there already
  1  no-record            FILE is not there
  1  no-such-transaction  FILE has no loan with this GROUP and TRANSACTION
  1  no-such-message      no message with this number was issued in the loan
  1  not-saved            it has, but the message is not saved
  2  -                    the words are no command; a usage message says why
  2  arguments            an argument is not what it has to be
  2  short at N           the input ends within a message, after N bytes of it
  2  tag at N             a message has a wrong field, at its byte N
  2  length at N          a message has a wrong length, at its byte N
  2  field at N           a message has a wrong value, at its byte N
  2  too-many             the input has more than 100,000 messages
  2  script at line N     the first bad line of a script
  2  record short         FILE ends within a record
  2  record bad at N      FILE has a record with a wrong byte, at N
  2  record digest        FILE was damaged: its digest is not that of its bytes
  2  record inconsistent  FILE has a record that no desk can have
  2  key missing          KEYFILE is not there
  2  key unreadable       KEYFILE cannot be read
  2  key open             KEYFILE is open to others than its owner
  2  key size             KEYFILE is no file of a key, which has 32 bytes
  2  key digits           the input is no key in groups of digits
  2  key check            a slip in the groups: the last one does not fit
  2  not-sealed           the input is no letter that is sealed with the key
  3  store failed         FILE is no regular file, or cannot be read or written,
                          or another command held FILE for ten seconds; or
                          KEYFILE cannot be made
  3  store too-large      FILE, FILE.came or FILE.notes has more than
                          67,108,864 bytes
  3  left                 `inbox` or `exchange` has deferred message files to
                          the next run
  3  read                 the input cannot be read
  3  write                the output cannot be written; a closed pipe too
  3  memory               memory ran out

Any command may end with `arguments`, `write` or `memory`. One on a FILE, PATH
or DIR may also end with `store failed` or `store too-large`, and each of these
but `new` with `no-record` or for a bad record. One with a KEYFILE may also end
with `key missing`, `key unreadable`, `key open` or `key size`. The help of a
command lists its other ends.";

/// The text of the help of `ill new`.
pub const NEW: &str = "\
Begin a desk of one role, in a file.

The desk has no loan yet. A library that both borrows and lends has two desks,
one as requester and one as responder, in two files.

FILE must not be there yet, and its folder must. Its name may not end in .new,
.lck, .came, .notes, .diary, .mail or .retired: what lies beside a desk does. It
belongs to the program. A record is written to FILE.new first. One line, `done`,
is printed.

The exit status is 0 if the desk is saved, and 1 with `exists`.";

/// The example below the help of `ill new`.
pub const NEW_EXAMPLE: &str = "Example:
  $ ill new box requester
  done
  $ ill new box requester
  ill: exists";

/// The text of the help of `ill act`.
pub const ACT: &str = "\
Perform one action in a loan, and save it.

At a requester's desk `request` begins a loan. At a responder's desk an
ILL-Request begins it, when `take` takes that. A desk has room for 1,000 loans.

The words of a requester:
  request EXPIRY ITEM    ask for the item; after the day EXPIRY the responder
                         may let the request expire
  cancel                 ask to drop the request
  reply yes | no         accept the conditions, or decline them
  receive                say that the item has come
  renew WISHED           ask to keep the item longer, to the day WISHED
  return                 send the item back

The words of a responder, on the day that --today says:
  answer RESULT          answer the request with RESULT
  cancel-reply yes | no  agree to cancel, or refuse to
  ship DUE               send the item, which is due back on DUE
  renew-answer yes DUE   let the item be kept to DUE
  renew-answer no        refuse to
  overdue                say that the item is overdue
  recall                 ask for the item back
  check-in               say that the item is back
  expire                 end the request, whose expiry day is past

DUE is a day or `+N`, N one to five digits: N days after the day of the action.
EXPIRY and WISHED are days or `none`. RESULT is conditional, retry, unfilled,
locations-provided, will-supply, hold-placed or estimate. ITEM is all the words
that remain, of 200 bytes at most. No word may contain a space, so a title has
no quotes round it: `request none War and Peace`.

A responder's action needs --today. With --today, in either role, an action gets
a line in FILE.diary before it is saved. `ill loan` shows its day. The line has
the name of --by, without a space, or `-`. If the file cannot be written, the
action is done all the same, and standard error says so.

Options stand before the words. Among the words an option of any command is
`arguments`. After `--`, right before the words, it is a word like the others,
as in a title.

With --long the line below that of the action has the item of the loan, after
`item`, if any.

With --seen the action is done only if the loan still stands as the value says.
The value is what an earlier command printed after its OUTCOME. Else nothing is
done, and the OUTCOME is `changed`. With --dry-run the line of the action is
printed, and nothing is saved.

One action issues one message; `take` may issue one too (`ill take --help`). The
messages of each loan are numbered 1, 2, 3, up to 255. If at most 10 numbers are
left after an action, a line on standard error says how many.

The action is saved in FILE before its line is printed:
  OUTCOME STATE DUE RELEASED/ISSUED
OUTCOME is `done`. Then come the state of the loan and its due date or `-`.
RELEASED says how many of its messages may be sent, and ISSUED how many it has
issued. After `done` the last of these is the message of the action. If the
action is refused, nothing changes, and OUTCOME says why:
  no-such-transaction    the desk has no such loan; `request` begins one
  desk-full              `request`, and the desk has 1,000 loans
  not-now                the state of the loan does not allow it
  date-earlier           DUE of `ship` is before today
  date-not-later         DUE of `renew-answer` is not after the due date
  not-due                `overdue`, and the due date is not past
  not-expired            `expire`, and no expiry day is past
  numbers-used           all 255 numbers are used

The exit status is 0 if the action is done, and 1 if it is refused. After `store
failed` the action may be saved or not: `ill status FILE` shows which.";

/// The example below the help of `ill act`.
pub const ACT_EXAMPLE: &str = "Example:
  $ ill new box requester
  done
  $ ill act box G1 T1 request none War and Peace
  done PENDING - 1/1
  $ ill act box G1 T1 return
  not-now PENDING - 1/1
  $ ill act box G1 T2 return
  no-such-transaction IDLE - 0/0
  $ ill new there responder
  done
  $ ill send box G1 T1 1 | ill take there
  taken IN-PROCESS - 0/0
  $ ill act there G1 T1 --today 20250301 ship +14
  done SHIPPED 20250315 1/1";

/// The text of the help of `ill take`.
pub const TAKE: &str = "\
Take the APDUs on standard input, and save what they change.

The APDUs are messages of other libraries, as `ill send` prints them there: `ill
take FILE < message`. Each is for the loan that it names.

A line is printed for each of them:
  OUTCOME STATE DUE RELEASED/ISSUED
OUTCOME is one of these; after it the line says how its loan stands, as that of
`ill act`:
  taken                  this is news: read it, and act on it
  repeat                 the desk knows it already; the partner may lack the
                         answer, so send all messages of the loan again
  stale                  it answers what is no longer open: nothing is to do
  conflict               the state does not allow it: somebody should look
  no-such-transaction    it is of a loan that the desk has not, and begins none
  desk-full              it would begin a loan, and the desk has 1,000
  wrong-role             it is of a kind that this desk sends
  numbers-used           it wants an answer, and all 255 numbers are used

With --long the line begins with the loan, type and number of the message. Its
further fields follow, each on an indented line, as `ill show` prints them:
  GROUP TRANSACTION TYPE NUMBER OUTCOME STATE DUE RELEASED/ISSUED

With --keep each message that is taken is kept in FILE.came, as it came, before
it is saved in FILE. `ill news` shows all of them in words, `ill show <
FILE.came` their fields, and `ill loan` those of a loan. If a message cannot be
kept, that is `store failed`, and the message is not saved. Then or after a
crash it may be kept twice.

With --keep and --today each message that is taken gets a line in FILE.diary, as
an action of `ill act` does.

Only a message that is taken changes the desk, and it is saved in FILE before
its line is printed. To take a message twice does no harm.

One message issues another: if the requester declines the conditions, by a
Conditional-Reply no, the responder issues an ILL-Answer unfilled. ISSUED has
risen by one then, as from 1/1 to 2/2, and that message has to be sent: `ill
send FILE G1 T1 2`.

With --key the input is one sealed letter of the other library, as its `ill send
--key` prints it. Its messages are taken in their order. Any other input is
`not-sealed`, and changes nothing. So is a letter of another key, one that was
changed on its way, and one of this library. An old letter that comes again does
no harm: its messages are repeats, or stale.

The exit status is 0 if each was taken, a repeat or stale, and 1 if one was
anything else. It is 2 if the input has a faulty message or too many, or with
`not-sealed`, and 3 with `read`. The messages before a fault stay taken.";

/// The example below the help of `ill take`.
pub const TAKE_EXAMPLE: &str = "Example:
  $ ill new here requester
  done
  $ ill act here G1 T1 request none Maps
  done PENDING - 1/1
  $ ill send here G1 T1 1 > message
  $ ill new there responder
  done
  $ ill take there < message
  taken IN-PROCESS - 0/0
  $ ill take there < message
  repeat IN-PROCESS - 0/0
  $ ill act there G1 T1 --today 20250301 ship +14
  done SHIPPED 20250315 1/1
  $ ill send there G1 T1 1 | ill take here --long
  G1 T1 Shipped 1 taken SHIPPED 20250315 1/1
    date 20250315";

/// The text of the help of `ill inbox`.
pub const INBOX: &str = "\
Take the message files of a folder, and save the desk once.

A message file is a regular file of FOLDER whose name begins with no dot. It has
one APDU: a message of another library, as `ill send` prints it there. One line
end may stand after it.

FOLDER may not be the folder of FILE or a shelf. It may lie in no folder whose
name ends in .mail: files there belong to desks.

First each message file is moved into a folder in FILE.mail/in and read there,
10,000 at most in one run. Those that a killed run has moved come first. The
others come in the order of the bytes of their names. FILE.mail has to be on the
disk of FOLDER. It is made for the owner of FILE alone, also if root runs this.
Then the files are taken, those without a message first. Those of each loan come
in the order of the numbers of their messages.

Each message that is taken is kept in FILE.came, as `ill take --keep` does. With
--today it gets a line in FILE.diary, which may have the name of --by. Then the
desk is saved, once, if a message was taken. Only then the message files go:
  removed                the desk has done with the file: its message is taken,
                         a repeat, stale or in conflict, or comes again
  quarantined            no desk will ever take it; it is kept, for a person, as
                         FILE.mail/aside/DIGEST. DIGEST.why beside it has a
                         line that says why. DIGEST is the SHA-256 of at most
                         its first 362 bytes, without a line end after its
                         message.
  deferred               it goes back to FOLDER, for the next run
After a fault all stay in FILE.mail/in for the next run: to take a message twice
does no harm. FILE.mail/asked has the messages that came for loans that are
over. `ill outbox` answers these.

With --key each file of FOLDER is a sealed letter of the other library, as its
`ill outbox --key` makes it. Its messages are taken as those of message files
are, under the name of the letter. Any other file changes nothing. It is
quarantined as `not-sealed`, or deferred if it is the record of a desk. A letter
is deferred if one of its messages is. Else it is quarantined if one is, and
else removed. DIGEST is that of at most the first 1,048,614 bytes of the letter.

Once the desk is saved, the lines of `ill take --long` are printed for each file
with a message. They show how the loan stood right after that message. For a
quarantined file a line `NAME aside REASON` comes after them, and for a deferred
one a line `NAME left REASON`. The reasons to quarantine a file are `short at
N`, `tag at N`, `length at N` and `field at N` of `ill --help`, and these:
  too-long               it is longer than 359 bytes
  trailing               more than a line end stands after its message
  not-sealed             with --key: it is no letter that is sealed with the key
  wrong-role             its message is of a kind that this desk sends
  numbers-used           it wants an answer, and all 255 numbers are used

The reasons to defer a file:
  not-read               it cannot be moved or read, or its name is no UTF-8
  record                 it is the record of a desk: look if FOLDER is right
  no-such-transaction    a requester's desk has no such loan, or not yet
  desk-full              it would begin a loan, and the desk has 1,000

The last line counts the message files:
  taken N, repeat N, stale N, conflict N, unknown N, aside N, left N, waiting N
`unknown` counts those of a loan that a responder's desk has not: they come
again, with its request. `waiting` counts the files beyond the first 10,000.

The exit status is 0 if all files are done, 1 if one was quarantined or in
conflict, and 3 with `left`. Then files are deferred or wait, and all else is
done. A file that cannot be removed or quarantined is named on standard error,
and then it is `store failed`.";

/// The example below the help of `ill inbox`.
pub const INBOX_EXAMPLE: &str = "Example:
  $ ill new here requester
  done
  $ ill act here G1 T1 request none Maps
  done PENDING - 1/1
  $ ill new there responder
  done
  $ ill send here G1 T1 1 | ill take there
  taken IN-PROCESS - 0/0
  $ ill act there G1 T1 --today 20250301 ship +14
  done SHIPPED 20250315 1/1
  $ mkdir mail
  $ ill send there G1 T1 1 > mail/1
  $ ill inbox here mail
  G1 T1 Shipped 1 taken SHIPPED 20250315 1/1
    date 20250315
  taken 1, repeat 0, stale 0, conflict 0, unknown 0, aside 0, left 0, waiting 0
  $ ls mail";

/// The text of the help of `ill outbox`.
pub const OUTBOX: &str = "\
Put the messages that want sending into a folder.

A desk never learns that its message has come. So a loan wants sending until it
is over: every run sends all its saved messages again, in their order. A loan is
over in CANCELLED and NOT-SUPPLIED; at a responder in CHECKED-IN; at a requester
in RETURNED with the flag checked-in. Then a requester is silent. A responder
sends if a message of the loan came in the last `ill inbox`: its own last
message may have been lost.

Each message becomes a message file of FOLDER, whole or not at all, also after a
loss of power. Its name is made of its loan and its number, as
`7ce619cb6e23ba0dd166097fce0754f3-001`, and is the same in every run. So a file
that nobody has fetched is there once. While it is written, a dot stands before
its name. A line `sent N` counts the messages. What `ill inbox` asks of FOLDER
holds here too.

With --key the messages leave in a sealed letter, as many as fit into 1,048,576
bytes. Further ones leave in another. The name of a letter is `letter-` and 32
digits of its SHA-256. So it does not show how many loans there are. A run with
the same messages makes the same letter. Without messages there is none.

With --stream the messages go to standard output in place of FOLDER, one after
another and nothing else. No key may be given then.

The exit status is 0 if all messages are there. Else the first ones may be.";

/// The example below the help of `ill outbox`.
pub const OUTBOX_EXAMPLE: &str = "Example:
  $ ill new here requester
  done
  $ ill act here G1 T1 request none Maps
  done PENDING - 1/1
  $ mkdir out
  $ ill outbox here out
  sent 1
  $ ls out
  d8b6cc5699564f046c870b8ef78f15e8-001
  $ ill outbox here --stream | ill check
  1 apdus";

/// The text of the help of `ill exchange`.
pub const EXCHANGE: &str = "\
Take the message files of a folder, and send into another.

A run does this, for a machine that works by itself:
  1. The message files of the folder IN are taken, as `ill inbox` does.
  2. With --overdue a responder issues an Overdue for each loan that is past its
     due date on DAY. With --expire it ends each request that is past its last
     day. Both want --today. Each gets a line in FILE.diary, and then a line is
     printed:
       GROUP TRANSACTION VERB done STATE DUE RELEASED/ISSUED
  3. With --copy the desk is copied to a file, which should be on another disk.
     A copy is replaced only by a desk that has its role and all its loans. In
     each of these the messages of the copy come first. Any other file stays:
     that is a failure.
  4. The messages that want sending are put into the folder OUT, as `ill outbox`
     does.
  5. With --beat a heartbeat is made anew: a file whose time shows when a run
     ended. It has one byte, and it never replaces a longer file.
If one of these fails, the later ones are not done: without a copy nothing is
sent. The desk is locked from the first to the last. A run may be killed at any
moment, and run again.

A night is the run of the requester, that of the responder, and the requester's
again, which takes the answers.

Before the first step the folders are checked. IN is not OUT, and what `ill
inbox` asks of FOLDER holds for both. The copy is another file than FILE, in a
folder that is there. Neither it nor the heartbeat may be in IN or OUT. Both get
the owner of FILE, also if root runs this.

Standard output has the lines of `ill inbox`, those of the second step and the
line `sent N`. Standard error has a line for each file that wants a person. It
is quarantined or deferred, or in a conflict that no lost, late or repeated
message explains. So cron sends only these lines by e-mail.

With --key all messages come and go in sealed letters, as `ill inbox --key` and
`ill outbox --key` take and make them. No other file of IN is taken.

The exit status is 0 if nothing wants a person, 1 if something does, and 3 with
`left`.";

/// The example below the help of `ill exchange`.
pub const EXCHANGE_EXAMPLE: &str = "Example:
  $ ill new here requester
  done
  $ ill act here G1 T1 request none Maps
  done PENDING - 1/1
  $ mkdir in out
  $ ill exchange here in out
  taken 0, repeat 0, stale 0, conflict 0, unknown 0, aside 0, left 0, waiting 0
  sent 1
  $ ls out
  d8b6cc5699564f046c870b8ef78f15e8-001";

/// The text of the help of `ill send`.
pub const SEND: &str = "\
Write the bytes of one message of a loan.

The messages of each loan are numbered 1, 2, 3, in the order in which `act` and
`take` issued them. NUMBER has one to three digits, with a value from 1 to 255.
The message must be saved: it always is once `act` or `take` has printed its
line.

Its bytes, and nothing else, go to standard output: 16 to 359 of them, which are
not for a terminal. Give them to a file or another program, as in `ill send FILE
G1 T1 1 > message`. FILE is not changed, so it does not show what was sent. A
message may be sent again at any time, and has the same bytes then.

With --key a sealed letter with the message goes out in its place, for `ill take
--key` of the other library. It has 37 bytes more.

The exit status is 0 if the message is written, and 1 with
`no-such-transaction`, `no-such-message` or `not-saved`.";

/// The example below the help of `ill send`.
pub const SEND_EXAMPLE: &str = "Example:
  $ ill new box requester
  done
  $ ill act box G1 T1 request none Maps
  done PENDING - 1/1
  $ ill send box G1 T1 1 > message
  $ ill show < message
  apdu ILL-Request
  group G1
  transaction T1
  number 1
  item Maps
  $ ill send box G1 T1 2
  ill: no-such-message";

/// The text of the help of `ill key`.
pub const KEY: &str = "\
Make, show or read a key, which two libraries hold.

The key seals letters: with --key the messages of `ill send`, `ill outbox` and
`ill exchange` leave in letters. The commands `ill take`, `ill inbox` and `ill
exchange` of the other library alone open them.

With neither --show nor --read a new key of the randomness of the system is made
in KEYFILE. `done` is printed. KEYFILE must not be there yet. It has 32 bytes,
and nobody but its owner may read or write it. Its name may not have an ending
that `ill new --help` names.

With --show the key in KEYFILE is printed, for the other library. It is 17
groups of four digits or letters from a to f, with spaces between them. The last
group checks the others. Give it by telephone or by a letter on paper, and never
by the way that the messages take. Who knows the key can write messages in the
name of both libraries. Each pair of desks wants a key of its own.

With --read the other library makes its KEYFILE of such groups on standard
input. Spaces and ends of lines may stand anywhere in them, and letters may be
capitals.

The exit status is 0 if the key is made, shown or read, and 1 with `exists`. It
is 2 with `key digits` or `key check`, and 3 with `store failed` or `read`.";

/// The example below the help of `ill key`.
pub const KEY_EXAMPLE: &str = "Example:
  $ ill key here.key
  done
  $ ill key here.key --show | ill key there.key --read
  done
  $ ill key here.key
  ill: exists";

/// The text of the help of `ill list`.
pub const LIST: &str = "\
List the loans of desks by the work of the day, a line for each.

The loans that want a hand come first, then those that wait, then those that are
over. Each kind of work has a heading, with the number of its listed loans. The
most pressing kind comes first. Of each kind the loan comes first whose due
date, or else the last day of its request, comes first. The columns of a line:
  state                  the state of the loan
  due                    the day on which the item is due, or `-`
  group                  the group qualifier of the loan
  transaction            the transaction qualifier of the loan
  actions                with --actions: the first words of the actions that
                         `act` takes on the day of --today, with commas between
                         them. Without --today it is some day
  title                  the item that is asked for, or `-`

The work is that of a day. These options say which:
  --today DAY            the day. Without it no date is past, and none is soon
  --ahead DAYS           a due date is soon if it is at most DAYS days away:
                         1 to 255, or 7 without this option

These options say which loans are listed; all that are given hold:
  --open                 leaves out the loans that are over
  --mine                 lists only the loans that want a hand. An item with its
                         reader wants none before its due date is soon. With
                         --since it lists the loans that have news, too
  --due-before DAY       only those that are due before this day. With --today
                         it may be `+N`, N days after that day, 1 to 255
  --state STATE          only those in this state, as SHIPPED
  --find WORDS           only those that have WORDS in a text, in capitals or
                         not. A text is GROUP and TRANSACTION, with a space
                         between them, the title or the note

With --notes the note on a loan stands on a line below it, after `note`. With
--since-when such a line has the day of its last message, after `since`. It is
there if FILE.diary has that day.

With --since DAY the news of a loan since DAY stand below it. Each message has a
line, after `news`. The words are those of `ill news`, whose help says which
messages are shown.

With --mine and --since DAY the list is one of a morning. It has a line, without
a state, for each loan that wants a hand or has news. Before the title stand the
news, with semicolons between them, or `-`. Loans that want no hand come last,
without a heading. Their lines begin with `news:` in place of the due date.

The last line counts all loans of the desk, whichever are listed. It says how
many want a hand, to do, and for how many more there is room. From 900 loans on
a line on standard error says so too. With --mine and no day, such a line says
how many more loans may want a hand by their dates. Such a line names each open
loan that has at most 10 numbers left for its messages, listed or not.";

/// The example below the help of `ill list`.
pub const LIST_EXAMPLE: &str = "Example:
  $ ill new here requester
  done
  $ ill act here G1 T1 request none Maps
  done PENDING - 1/1
  $ ill list here
  wait for the other library (1):
    PENDING  -         G1  T1  Maps
  loans 1, open 1, to do 0, room for 999
  $ ill send here G1 T1 1 > message
  $ ill new there responder
  done
  $ ill take there < message
  taken IN-PROCESS - 0/0
  $ ill list there --mine --actions
  answer, or ship (1):
    IN-PROCESS  -         G1  T1  answer,ship  Maps
  loans 1, open 1, to do 1, room for 999";

/// The text of the help of `ill news`.
pub const NEWS: &str = "\
Show what came to desks, in the order in which it came, a line for each message.

The messages are those that `take` with --keep, `inbox` and `exchange` have kept
in FILE.came. Without that file there is no news. A message is shown only if the
record of its loan has it as taken, and only once. The columns of a line:
  group                  the group qualifier of the loan
  transaction            the transaction qualifier of the loan
  number                 the number of the message, of the other library
  words                  what the message says
  title                  the item that is asked for, or `-`

The words of what a requester hears:
  only on conditions               ILL-Answer conditional
  will supply                      ILL-Answer will-supply
  hold placed                      ILL-Answer hold-placed
  no: try again later              ILL-Answer retry
  no: unfilled                     ILL-Answer unfilled
  no: other libraries may have it  ILL-Answer locations-provided
  no: an estimate of the cost      ILL-Answer estimate
  no: the request has expired      Expired
  cancel agreed                    Cancel-Reply yes
  cancel refused                   Cancel-Reply no
  shipped, due DAY                 Shipped
  overdue, was due DAY             Overdue
  renewed, due DAY                 Renew-Answer yes
  renewal refused, still due DAY   Renew-Answer no; DAY is that of the record
  recalled: send it back           Recall
  the partner has it back          Checked-In

The words of what a responder hears:
  asked for                        ILL-Request
  asked for, until DAY             ILL-Request with an expiry day
  conditions accepted              Conditional-Reply yes
  conditions declined              Conditional-Reply no
  asks to cancel                   Cancel
  the partner has received it      Received
  asks to renew                    Renew
  asks to renew, until DAY         Renew with a wished day
  on its way back                  Returned

The words of what a responder has sent:
  overdue notice sent              Overdue of its own
  expired                          Expired of its own

With --since only what came on DAY or later is shown. FILE.diary has the day on
which a message came, if the command that took it had --today. All that stands
after the last message of an earlier day is shown. So a message without a day is
shown with those around it. A message that came on an earlier day, too, is not
shown again. Last come an Overdue and an Expired that the desk itself has sent.
Such a message is shown if FILE.diary has it on DAY or later, and not before.

First of all come open answers of earlier days, whatever DAY is. They have ended
a loan and ask staff to do something. Staff try again later, or they read a
letter with a price or with other libraries. An answer is open until the note of
its loan begins with the word `done`: `ill note DESK GROUP TRANSACTION done: too
dear`. From then on it is shown as any other message is.

With --last only the last N messages are shown, 1 to 255. The last line counts
the messages, and those of them that are shown; with --json there is none.";

/// The example below the help of `ill news`.
pub const NEWS_EXAMPLE: &str = "Example:
  $ ill new here requester
  done
  $ ill act here G1 T1 request 20250331 Maps
  done PENDING - 1/1
  $ ill send here G1 T1 1 > message
  $ ill new there responder
  done
  $ ill take there --keep < message
  taken IN-PROCESS - 0/0
  $ ill news there
    G1  T1  1    asked for, until 2025-03-31  Maps
  messages 1, shown 1
  $ ill act there G1 T1 --today 20250301 ship +14
  done SHIPPED 20250315 1/1
  $ ill send there G1 T1 1 | ill take here --keep
  taken SHIPPED 20250315 1/1
  $ ill news here
    G1  T1  1    shipped, due 2025-03-15  Maps
  messages 1, shown 1";

/// The text of the help of `ill figures`.
pub const FIGURES: &str = "\
Count the loans of desks that were asked in a span of days, and how long they
took.

The days are those of FILE.diary, where `act`, `take`, `inbox` and `exchange`
enter them if they are given --today. All else is in FILE and in FILE.came. A
line of the diary counts only if the loan has the message that it names. Of
several lines that name one message, the last counts. The days --from and --to
are in the span, and --to may not be before --from. The lines of a desk:
  from DAY to DAY        the span
  asked                  the loans whose request has a day in the span
  filled                 those whose item was shipped
  open                   those that have no end yet
  cancelled              those that were cancelled
  refused                those that ended without the item, by their reason:
    unfilled             ILL-Answer unfilled
    retry                ILL-Answer retry
    estimate             ILL-Answer estimate
    locations-provided   ILL-Answer locations-provided
    expired              Expired
    unknown              the message with the reason was not kept
  days to answer         from the request to the first ILL-Answer or Shipped
  days to arrive         from the request to the Received
  days out               from the Shipped to the Checked-In
  without a day          the loans of the desk whose request has no day: they
                         are in no span, and no other line counts them

Each loan that was asked is one of filled, open, cancelled and refused. A line
of days has the mean of the loans with both days known, to a tenth of a day. The
number of these loans comes after it. Without one the line has `-`.

With --csv a record of CSV (RFC 4180) comes for each desk, after one with the
names of the fields.";

/// The example below the help of `ill figures`.
pub const FIGURES_EXAMPLE: &str = "Example:
  $ ill new here requester
  done
  $ ill act here G1 T1 --today 20250301 request none Maps
  done PENDING - 1/1
  $ ill send here G1 T1 1 > message
  $ ill new there responder
  done
  $ ill take there --keep --today 20250303 < message
  taken IN-PROCESS - 0/0
  $ ill act there G1 T1 --today 20250304 ship +14
  done SHIPPED 20250318 1/1
  $ ill figures there --from 20250301 --to 20250331
    from 2025-03-01 to 2025-03-31
    asked                 1
    filled                1
    open                  0
    cancelled             0
    refused               0
      unfilled            0
      retry               0
      estimate            0
      locations-provided  0
      expired             0
      unknown             0
    days to answer        1.0 of 1
    days to arrive        -
    days out              -
    without a day         0";

/// The text of the help of `ill status`.
pub const STATUS: &str = "\
Show how each loan in a file stands.

Seven lines for each loan are printed, in the order in which the loans were
begun; none, if the desk has no loan:
  role                   requester or responder
  group                  the group qualifier of the loan
  transaction            the transaction qualifier of the loan
  state                  the state of the loan
  due                    the day on which the item is due, or `-`
  messages               RELEASED/ISSUED: how many of its messages may be sent,
                         and how many it has issued
  marks                  the flags, those that are set of `received` (a Received
                         was issued, or taken), `checked-in` and `declined`, or
                         `-`";

/// The example below the help of `ill status`.
pub const STATUS_EXAMPLE: &str = "Example:
  $ ill new box requester
  done
  $ ill act box G1 T1 request none Maps
  done PENDING - 1/1
  $ ill status box
  role requester
  group G1
  transaction T1
  state PENDING
  due -
  messages 1/1
  marks -";

/// The text of the help of `ill loan`.
pub const LOAN: &str = "\
Show all of one loan: its request, its messages, what comes next.

The first seven lines on standard output are those of `ill status`. After them
come these:
  next                   who acts next: `mine`, this library; `theirs`, the
                         other one; or `over`, nobody
  now                    the first words of the actions that have a place now,
                         or `-`; each is one that some day allows
  item                   what the request asks for
  expiry                 the last day of the request, or `-`

A loan without a request has no line `item` and no line `expiry`. Then a
responder shows what it has taken, by the numbers of messages, each a number or
`-`:
  accepted               the conditions that were accepted last
  last-cancel            the last Cancel
  last-renew             the last Renew

A requester shows this in their place:
  held                   the conditions that stand, by their number, or `-`

If `ill note` has kept a note on the loan, a line has it:
  note                   the note

Then come the messages that the loan has issued, in order. An empty line stands
before each. A message has the lines of `ill show`, and one more:
  leaves                 `yes` if `send` gives it, or `no` while it is not
                         saved

After them come the messages that `take` has kept with --keep, in the order in
which they came, each once. Before each stands an empty line, after it this:
  came                   `yes`

After an empty line comes the history of the loan, in the order of FILE.diary.
It has only messages that the loan has:
  history                the day, the name of who acted or `-`, the first word
                         of an action or the type of a message that came, and
                         the number of the message

With --picture, but not with --json, a sequence chart in the language of Mermaid
comes in place of all this. It has the messages in the right order for each
side, and shows which message answers which. How both orders lay in time, nobody
knows.

The exit status is 0 if the loan is shown, and 1 with `no-such-transaction`.";

/// The example below the help of `ill loan`.
pub const LOAN_EXAMPLE: &str = "Example:
  $ ill new box requester
  done
  $ ill act box G1 T1 request none Maps
  done PENDING - 1/1
  $ ill loan box G1 T1
  role requester
  group G1
  transaction T1
  state PENDING
  due -
  messages 1/1
  marks -
  next theirs
  now cancel
  item Maps
  expiry -
  held -

  apdu ILL-Request
  group G1
  transaction T1
  number 1
  item Maps
  leaves yes";

/// The text of the help of `ill note`.
pub const NOTE: &str = "\
Keep a note on one loan, for staff alone.

A note says what no message says: for whom the book is, a shelf mark, a letter
that was sent. It never leaves the library: no message, no date and no slip
depends on it. A loan has one note, and a new one replaces it. `ill list
--notes`, `ill loan` and `ill report` show it, and `ill list --find` looks for
words in it.

An answer that asks staff for something stays news until the note begins with
the word `done`. It may be in capitals. `ill news --help` says which answers
these are.

The note is all WORDS, the words that remain, of 200 bytes at most, without a
control character. An empty one, '', removes the note of the loan. An option
among WORDS is as `ill act --help` says.

The note is kept in FILE.notes, a line for each: GROUP, TRANSACTION and WORDS.
Without that file there is no note. The last line of a loan counts. A space of
GROUP or TRANSACTION is written by its number. So is a character of WORDS on
which a terminal or an editor may act. A part of a line that a crash has left is
cut off, and standard error says so.

One line, `done`, is printed once the note is on the disk.

The exit status is 0 if the note is kept, and 1 with `no-such-transaction`.
After `store failed` the note may be kept or not: `ill loan` shows which.";

/// The example below the help of `ill note`.
pub const NOTE_EXAMPLE: &str = "Example:
  $ ill new box requester
  done
  $ ill act box G1 T1 request none Maps
  done PENDING - 1/1
  $ ill note box G1 T1 for Prof. Noether, by Friday
  done
  $ ill list box --notes
  wait for the other library (1):
    PENDING  -         G1  T1  Maps
      note for Prof. Noether, by Friday
  loans 1, open 1, to do 0, room for 999";

/// The text of the help of `ill slip`.
pub const SLIP: &str = "\
Write a slip of one loan, to print and to lay in its item.

The slip is one file of HTML, on standard output, for a sheet of A6. It has no
scripts, and it needs nothing from elsewhere. On it stand the title, the group
and transaction of the loan, and this library's role in plain words. The day on
which the loan is due stands there as YYYY-MM-DD, if there is one. Below is room
for a note by hand.

Between them stand bars, as Code 128 has them, for a scanner that is a keyboard.
It types GROUP, a space and TRANSACTION, as they stand after FILE in other
commands. The longer the names, the finer are the bars. There are none if a name
has a character that is no letter, no digit and none of - . / : _ and +. A shell
might take such a name for more than a name.

What a person wrote stands there as text, whatever its characters.

The exit status is 0 if the slip is written, and 1 with `no-such-transaction`.";

/// The example below the help of `ill slip`.
pub const SLIP_EXAMPLE: &str = "Example:
  $ ill new box requester
  done
  $ ill act box G1 T1 request none Maps
  done PENDING - 1/1
  $ ill slip box G1 T1 > slip.html";

/// The text of the help of `ill verify`.
pub const VERIFY: &str = "\
Read a desk, and show what it has or what is wrong with it.

These lines are printed:
  version                that of its record
  role                   requester or responder
  loans                  how many loans it has
  messages               how many messages these have issued, all together
  room                   for how many more loans there is room

A file that is no record, or a damaged one, is a fault. The fault has the offset
of the first wrong byte, if there is one. With --json the object has the fault,
which is on standard error, too.";

/// The example below the help of `ill verify`.
pub const VERIFY_EXAMPLE: &str = "Example:
  $ ill new box requester
  done
  $ ill act box G1 T1 request none Maps
  done PENDING - 1/1
  $ ill verify box
  version 2
  role requester
  loans 1
  messages 1
  room 999";

/// The text of the help of `ill report`.
pub const REPORT: &str = "\
Write a page for a browser of the loans of desks.

The page is one file of HTML, on standard output. It has no scripts, and it
needs nothing from elsewhere. It may be printed.

Of each desk the page counts the loans that want a hand on the day of --today.
It counts those that are not over, all loans, and the room for more. Then it has
a table for each kind of work, with the number of its loans. The work says what
staff do next with a loan on that day. The most pressing work stands first, and
loans that are over stand last. A due date is soon if it is at most 7 days away.

A row has a loan's title and note, its group and transaction, and its state in
plain words. Below that stands the day of its last message, if FILE.diary has
it. With --since DAY its news since that day stand there, too, in the words of
`ill news`. It has the day on which the item is due, or else the day after which
the request may expire. Last it has the verbs that `ill act` takes on the day of
--today. In each table the earliest of these days stands first, and loans
without one last. A day is written YYYY-MM-DD.

What a person wrote, titles, notes, groups, transactions and names of files,
stands there as text, whatever its characters. A desk that cannot be read has
its fault on the page too.";

/// The example below the help of `ill report`.
pub const REPORT_EXAMPLE: &str = "Example:
  $ ill new here requester
  done
  $ ill act here G1 T1 request none Maps
  done PENDING - 1/1
  $ ill report here --today 20250301 > page.html";

/// The text of the help of `ill show`.
pub const SHOW: &str = "\
Show each APDU on standard input.

`ill show < FILE` prints the type, the transaction, the number and the further
fields of each APDU, one field to a line.

The exit status is 0 if all of them are shown. It is 2 if one has a fault or
there are too many, and 3 with `read`. The APDUs before a fault are shown.";

/// The example below the help of `ill show`.
pub const SHOW_EXAMPLE: &str = "Example:
  $ printf 'f\\20\\200\\1\\1\\241\\10\\201\\2G1\\202\\2T1\\202\\1\\2' | ill show
  apdu Cancel
  group G1
  transaction T1
  number 2";

/// The text of the help of `ill check`.
pub const CHECK: &str = "\
Check the APDUs on standard input and count them.

Their number is printed after the last of them: `ill check < FILE`. If one of
them has a fault, standard output has nothing.

The exit status is 0 if they are counted. It is 2 if one has a fault or there
are too many, and 3 with `read`.";

/// The example below the help of `ill check`.
pub const CHECK_EXAMPLE: &str = "Example:
  $ printf 'f\\20\\200\\1\\1\\241\\10\\201\\2G1\\202\\2T1\\202\\1\\2' | ill check
  1 apdus";

/// The text of the help of `ill simulate`.
pub const SIMULATE: &str = "\
Perform a script of both sides of a loan, from standard input.

The script, as in `ill simulate G1 T1 < FILE`, has at most 100,000 lines, of at
most 1,024 bytes each. A line says one event; an empty one, and one that begins
with `#`, says nothing. A line is printed for each event: its number, its
outcome, and how both sides stand after it.

The lines of a script:
  requester request EXPIRY ITEM
  requester cancel | receive | return
  requester reply yes | no
  requester renew WISHED
  responder TODAY answer RESULT
  responder TODAY cancel-reply yes | no
  responder TODAY ship DUE
  responder TODAY renew-answer yes DUE | no
  responder TODAY overdue | recall | check-in | expire
  save SIDE
  save-fault SIDE old | new
  restart SIDE
  send SIDE NUMBER
  deliver SIDE NUMBER
  noise SIDE HEX

SIDE is requester or responder. EXPIRY, WISHED, TODAY and DUE are days; EXPIRY,
WISHED and HEX may be `none`. RESULT is as for `ill act`.

The exit status is 0 if the whole script was performed. It is 2 for a line that
is no event, and 3 with `read`. The lines of the events before are printed.";

/// The example below the help of `ill simulate`.
pub const SIMULATE_EXAMPLE: &str = "Example:
  $ printf 'requester request none Maps\\nsave requester\\n' | ill simulate G1 T1
  1 done requester PENDING - 0/1 responder IDLE - 0/0
  2 saved requester PENDING - 1/1 responder IDLE - 0/0";

/// The text of the help of `ill simulate-desks`.
pub const SIMULATE_DESKS: &str = "\
Perform a script of two desks, from standard input.

Both desks begin without a loan. The script, as in `ill simulate-desks < FILE`,
has the lines of a script of `simulate` and one more:
  use GROUP TRANSACTION

It is no event: the lines after it are in this loan. An event before the first
of them is a bad line. A save, a faulted save and a restart are those of a whole
desk. The line of an event says how both sides of the loan in use stand after
it. A side is IDLE if its desk does not hold the loan.

Two words are seen at desks alone: `no-such-transaction` of what names a loan
that the desk lacks, and begins none; and `desk-full` of what would begin one
more than 1,000.

The exit status is 0 if the whole script was performed. It is 2 for a line that
is no event and no use, and 3 with `read`. The lines of the events before are
printed.";

/// The example below the help of `ill simulate-desks`.
pub const SIMULATE_DESKS_EXAMPLE: &str = "Example:
  $ printf 'use G1 T1\\nrequester request none Maps\\n' | ill simulate-desks
  1 done requester PENDING - 0/1 responder IDLE - 0/0";

/// The text of the help of `ill shelf retire`.
pub const RETIRE: &str = "\
Replace a desk whose loans are over by a mark of its group.

Titles and names of loans that are over may have to be forgotten. But a desk
cannot be removed alone: a request that comes again would begin its loan a
second time. So the mark stays in place of the desk, in DESK.retired, and no
desk of GROUP is ever made again. A responder's mark has its last message of
each loan, which says how the loan ended, and no title.

The next `ill shelf exchange` removes each message file of the group. If the
mark has the last message of its loan, that is sent again. So a requester who
missed it ends the loan. Else standard error names the file, once a month for a
group.

One line is printed: `done`, or `not-now` if a loan of the group is not over.
Then nothing is changed. After `done`, nothing else is known of the loans. Both
libraries may retire a group as soon as its loans are over.

The exit status is 0 after `done`, and 1 after `not-now`.";

/// The example below the help of `ill shelf retire`.
pub const RETIRE_EXAMPLE: &str = "Example:
  $ ill shelf new shelf requester
  done
  $ ill shelf act shelf North-2025 T1 --new-group request none Maps
  done PENDING - 1/1
  $ ill shelf retire shelf North-2025
  not-now";

/// The text of the help of `ill shelf`.
pub const SHELF: &str = "\
Keep a folder of desks, one for each group of loans.

A desk has room for 1,000 loans, and nothing may be taken out of it. A shelf has
room for any number: a folder DIR with a desk for each GROUP, all of one role.
The group of a loan names its desk, so no loan can come to two of them. Begin a
new group, such as a partner and a year, before a desk is full.

The commands take the words of those for one desk, with DIR in place of FILE.
The exit status is theirs, too. If DIR is no shelf, it is 1 with `no-record`,
but for `new`. These commands alone change a desk of the shelf, send from it or
keep notes. With such a FILE `ill act`, `ill take` and their like are
`arguments`. `ill list DIR` and `ill report DIR` take a shelf too.

The desk of GROUP is the file DIR/GROUP.requester or DIR/GROUP.responder. All
bytes of the name but letters, digits, `-` and `_` are written as `%` and two
digits. DIR/.shelf is the shelf's own desk: it says the role, and takes the
message files that have no desk.

`status`, `inbox`, `outbox` and `exchange` go from desk to desk. The path of a
desk stands on a line before its lines, but not with --json.

A requester's shelf begins a group if `act --new-group` says so. A responder's
begins one for an ILL-Request, and one run makes 16 desks at most. Further
requests wait for the next run.";

/// The example below the help of `ill shelf`.
pub const SHELF_EXAMPLE: &str = "Example:
  $ ill shelf new shelf requester
  done
  $ ill shelf act shelf North-2025 T1 request none Maps
  ill: no-record
  $ ill shelf act shelf North-2025 T1 --new-group request none Maps
  done PENDING - 1/1
  $ ls shelf
  North-2025.requester
  $ ill shelf act shelf North-2025 T2 request none Atlas
  done PENDING - 1/1";

/// The text of the help of `ill shelf new`.
pub const SHELF_NEW: &str = "\
Begin a shelf of one role, in a folder.

DIR is made, if it is not there. Its folder must be there. One line, `done`, is
printed. `exists` says that DIR is a shelf already.

The exit status is 0 if the shelf is saved, and 1 with `exists`.";

/// The text of the help of `ill shelf act`.
pub const SHELF_ACT: &str = "\
Perform one action in a loan, at the desk of its group.

The words and the answers are those of `ill act`. If DIR has no desk of GROUP,
that is `no-record`, so that a slip of the pen begins no group. With
--new-group a requester's `request` begins one, and any other action there is
`no-such-transaction`. So is each action of a retired group.

If a desk is full, go on in a new group, which you name: the other library needs
no notice.";

/// The text of the help of `ill shelf loan`.
pub const SHELF_LOAN: &str = "\
Show all of one loan: request, messages, what may be done.

It shows what `ill loan` shows, of the desk of GROUP.";

/// The text of the help of `ill shelf note`.
pub const SHELF_NOTE: &str = "\
Keep a note on one loan, for staff alone.

It keeps what `ill note` keeps, beside the desk of GROUP: in DESK.notes. To
retire a group removes its notes.";

/// The text of the help of `ill shelf slip`.
pub const SHELF_SLIP: &str = "\
Write a slip of one loan, to print and to lay in its item.

It writes what `ill slip` writes, of the desk of GROUP.";

/// The text of the help of `ill shelf status`.
pub const SHELF_STATUS: &str = "\
Show how each loan stands, desk by desk.

The loans are shown as `ill status` shows them. Standard error names a desk that
cannot be read, and the others are shown.";

/// The text of the help of `ill shelf take`.
pub const SHELF_TAKE: &str = "\
Take the APDUs on standard input, each at the desk of its group.

It does what `ill take` does, and saves each desk as it goes. An ILL-Request of
a new group makes its desk at a responder's shelf. Other messages of groups that
have no desk are `no-such-transaction`; one of a retired group ends the command
with that.";

/// The text of the help of `ill shelf send`.
pub const SHELF_SEND: &str = "\
Write the bytes of one message of a loan.

It writes what `ill send` writes, of the desk of GROUP.";

/// The text of the help of `ill shelf inbox`.
pub const SHELF_INBOX: &str = "\
Take the message files of a folder, each at the desk of its group.

Each message file of FOLDER goes to the desk of the group of its message. Then
each desk takes its files, as `ill inbox` does, and is loaded and saved once.
The shelf's own desk takes what has no desk: what is no message is quarantined
in DIR/.shelf.mail/aside.

An ILL-Request of a new group makes its desk at a responder's shelf. A run makes
16 desks at most; standard error names each, and the requests that wait. A
message of a retired group is removed. The next `ill shelf outbox` answers it,
or standard error names it, once a month for a group.

Standard error names a desk that fails, and the others go on. It names a lost
desk in each run: DESK.came or DESK.mail is there, and DESK is not. A lost desk
counts as files that are deferred.

With --key the sealed letters in FOLDER are opened first. Each message in them
is put into DIR/.opened, in a file of its own. From there the files go to the
desks, and one that is deferred goes back there. A letter is removed once the
disk has its messages. Standard error names any other file: it is quarantined as
`not-sealed`, or deferred if it is a desk's record.

The exit status is that of the first desk that fails, as of `ill inbox`. If none
fails, it is 3 if files are deferred, 1 if one was quarantined or in conflict,
else 0.";

/// The text of the help of `ill shelf outbox`.
pub const SHELF_OUTBOX: &str = "\
Put the messages of all desks that want sending into a folder.

Each desk puts its messages into FOLDER, or onto standard output, as `ill
outbox` does. The last messages of retired groups go into FOLDER too, if
messages in the last `ill shelf inbox` asked for them. No line counts these.

With --key each desk seals a letter of its own, and so do these groups together.";

/// The text of the help of `ill shelf exchange`.
pub const SHELF_EXCHANGE: &str = "\
Take the message files of a folder, and send into another.

The files of IN are sorted to the desks, as `ill shelf inbox` does. Then each
desk does what `ill exchange` does. At the end go the last messages of retired
groups, if a message has asked for them. The folders are checked first, as by
`ill exchange`. With --key all messages come and go in sealed letters, as `ill
shelf inbox --key` and `ill shelf outbox --key` take and make them.

--copy names a folder, which has to be there and is not DIR. Each desk is copied
into it before its messages leave, and so is the mark of each retired group. If
it has a desk or a mark of which DIR has neither, that desk is lost. Its files
are deferred. The heartbeat of --beat is made anew in the end, unless a desk has
failed.

The exit status is that of the first desk that fails, as of `ill exchange`. If
none fails, it is 3 if files are deferred, or with `store failed` of IN, OUT,
--copy or --beat. Else it is 1 if a file wants a person, or 0.";
