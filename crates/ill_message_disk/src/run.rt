//! The message files of a run on a disk that may lose its power.

ghost use Rattle.std.specs.Prelude.{◌≡◌, ◌⊎◌, true, slice_get, None, Some, IfOk, IfSome, OnErr, OnOk, [], ◌∷◌, ◌++◌};
ghost use Rattle.ill_disk.specs.Calls.{Answers};
ghost use Rattle.ill_message_disk.specs.Spots.{FlushesClaim, GivesMessageFileBack, Gone, Quarantined, QuarantinesMessageFile, RemovesMessageFile};
ghost use Rattle.ill_message_disk.specs.TakenPaths.{AreKnown, IsInOrder};
ghost use Rattle.ill_message_disk.specs.Runs as runs;
ghost use Rattle.ill_message_disk.specs.Runs.{AddsMessageFile, AllKept, AllStayKept, AnyMessageFile, AreKept, AreSpread, DoesAt, DoesNothing, GivesBackInRun, HasComeAlone, IsSpread, KeepsInRun, LooksFor, MessageFilesSurvive, MovesInRun, admitted, has_come_as, is_admitted, is_spread_from, is_spread_from_all, keeps_off, misses, run_state, spares};

use crate::keeper::Keeper;
use crate::message_disk::MessageDisk;
use crate::moves::{
    flush_claim, give_message_file_back, quarantine_message_file, remove_message_file,
};
use crate::spot::{Paths, Spot};
use crate::taken_paths::{TakenPaths, take_sets, with_paths};
use ill_disk::DiskFault;
use std::alloc::Global;
use std::marker::Model;

/// The message files of a run on a disk, and the messages that ask. A message file is known by its number in the run,
/// from 0 on.
///
/// The place of a message file is where its file has a name on the disk. No call loses a message file, but `remove`. At
/// each moment of a call, and after each loss of power, the file of a message file has one of its names: the claimed
/// one, the one in the folder from which it was claimed, or the one in quarantine. The disk must be correct for that.
#[derive(Drop)]
pub struct MessageRun<D: MessageDisk> {
    disk: D,
    spots: Vec<Option<Spot>>,
    /// The paths of the message files. If memory ran out for them, there are none, and `add` compares a new message
    /// file with each.
    taken: Option<TakenPaths>,
    asked: Keeper,
    folder: Vec<u8>,
}

// The value of a run has all but the sets of paths. By the invariant these have the paths of its message files.
impl<D: MessageDisk> Model for MessageRun<D> {
    ghost Value = { runs.MessageRunOf D };

    ghost view = { λ r. record { disk = r.disk; spots = r.spots.items; asked = r.asked; folder = r.folder.items } };

    ghost invariant = { λ r. IsInOrder r.asked r.taken r.spots.items };
}

impl<D: MessageDisk> MessageRun<D> {
    /// Returns a run without message files. It keeps the messages that ask in `asked`, and quarantines message files
    /// into `folder`.
    pub fn new(alloc: Global, disk: D, asked: Keeper, folder: Vec<u8>) -> MessageRun<D>
        ensures { result ≡ record { disk = disk; spots = []; asked = asked; folder = folder.items } }
    {
        MessageRun {
            disk,
            spots: Vec::new(alloc),
            taken: Some(TakenPaths::new(alloc)),
            asked,
            folder,
        }
    }

    /// Returns the disk, to look at.
    pub fn disk(&self) -> &D
        ensures disk { result.now ≡ self.now.disk }
        ensures spread { IsSpread self.now.asked self.now.spots }
    {
        &self.disk
    }

    /// Adds the message file with these paths. The run takes no care of it if no file stands at its claimed path. Nor
    /// does it if another message file or the messages that ask have one of its paths. The message file then stays
    /// where it is, for the next run.
    pub fn add(&mut self, alloc: Global, paths: Paths<'_>) -> Result<(), DiskFault>
        ensures added { OnOk result (AddsMessageFile D.state (λ file. record {
          claimed = paths.entry.claimed.now;
          waiting = paths.entry.waiting.now;
          quarantined = paths.entry.quarantined.now;
          reason = paths.entry.reason.now;
          file = file;
        }) self.old self.new) }
        ensures failed { OnErr result (self.new.spots ≡ self.old.spots) }
        ensures same { (D.state self.old.disk).is_correct ≡ true → (D.state self.new.disk).now ≡ (D.state self.old.disk).now }
        ensures asked { self.new.asked ≡ self.old.asked }
    {
        let others = Others {
            spots: &self.spots,
            taken: &self.taken,
        };
        let spot = spot_at(alloc, &mut self.disk, &self.asked, others, paths)?;
        let taken = with_paths(take_sets(&mut self.taken), &spot);
        self.spots.push(spot)?;
        self.taken = taken;
        Ok(())
    }

    /// Adds a message file that was not claimed. It stays where it is.
    pub fn add_unclaimed(&mut self) -> Result<(), DiskFault>
        ensures added { OnOk result (self.new ≡ record self.old { spots = self.old.spots ++ None ∷ [] }) }
        ensures failed { OnErr result (self.new ≡ self.old) }
    {
        self.spots.push(None)?;
        Ok(())
    }

    /// Flushes the claimed name of each message file of which the run takes care. Then each crash leaves each of these
    /// message files. Fails if a file does not stand at its claimed path, or a flush fails.
    pub fn flush_claims(&mut self) -> Result<(), DiskFault>
        ensures kept { OnOk result (AreKept D.state self.new) }
        ensures correct { (D.state self.new.disk).is_correct ≡ (D.state self.old.disk).is_correct }
        ensures message_files { self.new.spots ≡ self.old.spots }
        ensures asked { self.new.asked ≡ self.old.asked }
    {
        flush_each(&mut self.disk, &self.spots)
    }

    /// Removes message file `number`. A message file that is not claimed, or of which the run takes no care,
    /// stays.
    pub fn remove(&mut self, number: usize) -> Result<(), DiskFault>
        ensures moves { MovesInRun Gone number (run_state D.state self.old) result (run_state D.state self.new) }
        ensures survive { MessageFilesSurvive D.state (λ other. other ≡ number → ⊥) self.old self.new }
        ensures kept { AllStayKept self.old.spots (D.state self.old.disk) (D.state self.new.disk) }
        ensures message_files { self.new.spots ≡ self.old.spots }
    {
        remove_at(&mut self.disk, &self.spots, number)
    }

    /// Quarantines message file `number` for a person, with the line `why`. A message file that is not
    /// claimed, or of which the run takes no care, stays. Makes the folder of the message files that are quarantined,
    /// if it is not there.
    pub fn quarantine(&mut self, number: usize, why: &[u8]) -> Result<(), DiskFault>
        ensures moves { MovesInRun Quarantined number (run_state D.state self.old) result (run_state D.state self.new) }
        ensures survive { MessageFilesSurvive D.state AnyMessageFile self.old self.new }
        ensures message_files { self.new.spots ≡ self.old.spots }
    {
        self.disk.make_folder(&self.folder)?;
        quarantine_at(&mut self.disk, &self.spots, number, why)
    }

    /// Gives message file `number` back to the folder from which it was claimed. If another message file of
    /// its name has come there, or is in the run, it stays claimed.
    pub fn give_back(&mut self, number: usize) -> Result<(), DiskFault>
        ensures moves { GivesBackInRun number (run_state D.state self.old) (run_state D.state self.new) }
        ensures survive { MessageFilesSurvive D.state AnyMessageFile self.old self.new }
        ensures message_files { self.new.spots ≡ self.old.spots }
    {
        let others = Others {
            spots: &self.spots,
            taken: &self.taken,
        };
        give_back_at(&mut self.disk, others, number)
    }

    /// Keeps `asked`, messages that ask. If there are none, no file is left.
    pub fn keep_asked(&mut self, asked: &[u8]) -> Result<(), DiskFault>
        ensures keeps { KeepsInRun asked.now (run_state D.state self.old) result (run_state D.state self.new) }
        ensures survive { MessageFilesSurvive D.state AnyMessageFile self.old self.new }
        ensures message_files { self.new.spots ≡ self.old.spots }
    {
        if asked.is_empty() {
            return self.asked.forget(&mut self.disk);
        }
        self.asked.keep(&mut self.disk, asked)
    }

    /// Removes the folder `path`, if it is empty.
    pub fn remove_folder(&mut self, path: &[u8])
        ensures state { run_state D.state self.new ≡ run_state D.state self.old }
        ensures disk { D.state self.new.disk ≡ D.state self.old.disk }
        ensures message_files { self.new.spots ≡ self.old.spots }
    {
        let _ = self.disk.remove_folder(path);
    }
}

/// The message files of a run, and their paths in sets, if there are sets.
#[derive(Clone, Copy)]
struct Others<'a> {
    spots: &'a [Option<Spot>],
    taken: &'a Option<TakenPaths>,
}

/// Returns the message file with these paths, if its file stands at its claimed path, and a run with the message files
/// `others` takes care of it.
fn spot_at<D: MessageDisk>(
    alloc: Global,
    disk: &mut D,
    asked: &Keeper,
    others: Others<'_>,
    paths: Paths<'_>,
) -> Result<Option<Spot>, DiskFault>
    requires { AreKnown others.taken.now others.spots.now }
    ensures looks { Answers (LooksFor asked.now others.entry.spots.now (λ file. record {
      claimed = paths.entry.claimed.now;
      waiting = paths.entry.waiting.now;
      quarantined = paths.entry.quarantined.now;
      reason = paths.entry.reason.now;
      file = file;
    })) (D.state disk.old) result (D.state disk.new) }
    ensures admitted { IfOk result (λ found. IfSome found (λ spot. is_admitted asked.now others.entry.spots.now spot ≡ true)) }
{
    match disk.find(paths.claimed)? {
        Some(found) => admit(alloc, asked, others, paths, found.file),
        None => Ok(None),
    }
}

/// Returns the message file with these paths and this file, if a run with the message files `others` takes care of it.
fn admit(
    alloc: Global,
    asked: &Keeper,
    others: Others<'_>,
    paths: Paths<'_>,
    file: u128,
) -> Result<Option<Spot>, DiskFault>
    requires { AreKnown others.taken.now others.spots.now }
    ensures found { IfOk result (λ found. found ≡ admitted asked.now others.entry.spots.now (record {
      claimed = paths.entry.claimed.now;
      waiting = paths.entry.waiting.now;
      quarantined = paths.entry.quarantined.now;
      reason = paths.entry.reason.now;
      file = file;
    })) }
    ensures admitted { IfOk result (λ found. IfSome found (λ spot. is_admitted asked.now others.entry.spots.now spot ≡ true)) }
{
    let Some(spot) = Spot::at(alloc, paths, file)? else {
        return Ok(None);
    };
    if is_admitted(asked, others, &spot) {
        Ok(Some(spot))
    } else {
        Ok(None)
    }
}

/// Returns true if a message file takes no path of the messages that ask or of `others`. None of `others` may take a
/// path of it.
fn is_admitted(asked: &Keeper, others: Others<'_>, spot: &Spot) -> bool
    requires { AreKnown others.taken.now others.spots.now }
    ensures { result ≡ is_admitted asked.now others.entry.spots.now spot.now }
{
    keeps_off(asked, spot) && is_spread_from_others(spot, others)
}

/// Returns true if a message file takes no path of any of `others`, and none of these takes one of it.
fn is_spread_from_others(spot: &Spot, others: Others<'_>) -> bool
    requires { AreKnown others.taken.now others.spots.now }
    ensures { result ≡ is_spread_from_all spot.now others.entry.spots.now }
{
    match others.taken {
        Some(taken) => taken.is_free(spot),
        None => is_spread_from_all(spot, others.spots),
    }
}

/// Returns true if the file of a message file may stand at neither path of the messages that ask. Its reason may not be
/// at the path of their file.
fn keeps_off(asked: &Keeper, spot: &Spot) -> bool
    ensures { result ≡ keeps_off asked.now spot.now }
{
    misses(asked.path(), spot) && misses(asked.temporary(), spot) && spot.reason() != asked.path()
}

/// Returns true if `path` is none of those at which the file of a message file may stand.
fn misses(path: &[u8], spot: &Spot) -> bool
    ensures { result ≡ misses path.now spot.now }
{
    spot.claimed() != path && spot.waiting() != path && spot.quarantined() != path
}

/// Returns true if a message file takes no path of any of `spots`, and none of these takes one of it.
fn is_spread_from_all(spot: &Spot, spots: &[Option<Spot>]) -> bool
    ensures { result ≡ is_spread_from_all spot.now spots.now }
{
    for other in spots {
        if !is_spread_from(spot, other) {
            return false;
        }
    }
    true
}

/// Returns true if neither `spot` nor `other` takes a path of the other message file, or if `other` is `None`.
fn is_spread_from(spot: &Spot, other: &Option<Spot>) -> bool
    ensures { result ≡ is_spread_from spot.now other.now }
{
    match other {
        Some(other) => spares(spot, other) && spares(other, spot),
        None => true,
    }
}

/// Returns true if the file of `other` may stand at no path that `spot` leaves or takes.
fn spares(spot: &Spot, other: &Spot) -> bool
    ensures { result ≡ spares spot.now other.now }
{
    misses(spot.reason(), other)
        && misses(spot.claimed(), other)
        && misses(spot.quarantined(), other)
}

/// Flushes the claimed name of each message file of `spots`.
fn flush_each<D: MessageDisk>(disk: &mut D, spots: &[Option<Spot>]) -> Result<(), DiskFault>
    requires { AreSpread spots.now }
    ensures kept { OnOk result (AllKept spots.now (D.state disk.new)) }
    ensures correct { (D.state disk.new).is_correct ≡ (D.state disk.old).is_correct }
{
    for number in 0..spots.len() {
        flush_at(disk, spots, number)?;
    }
    Ok(())
}

/// Flushes the claimed name of message file `number` of `spots`, if the run takes care of it.
fn flush_at<D: MessageDisk>(
    disk: &mut D,
    spots: &[Option<Spot>],
    number: usize,
) -> Result<(), DiskFault>
    ensures { DoesAt (λ spot. FlushesClaim spot (D.state disk.old) result (D.state disk.new))
        (DoesNothing (D.state disk.old) result (D.state disk.new)) (slice_get spots.now number) }
{
    match spots.get(number) {
        Some(Some(spot)) => flush_claim(disk, spot),
        Some(None) => Ok(()),
        None => Ok(()),
    }
}

/// Removes message file `number` of `spots`, if the run takes care of it.
fn remove_at<D: MessageDisk>(
    disk: &mut D,
    spots: &[Option<Spot>],
    number: usize,
) -> Result<(), DiskFault>
    ensures { DoesAt (λ spot. RemovesMessageFile spot (D.state disk.old) result (D.state disk.new))
        (DoesNothing (D.state disk.old) result (D.state disk.new)) (slice_get spots.now number) }
{
    match spots.get(number) {
        Some(Some(spot)) => remove_message_file(disk, spot),
        Some(None) => Ok(()),
        None => Ok(()),
    }
}

/// Quarantines message file `number` of `spots`, if the run takes care of it.
fn quarantine_at<D: MessageDisk>(
    disk: &mut D,
    spots: &[Option<Spot>],
    number: usize,
    why: &[u8],
) -> Result<(), DiskFault>
    ensures { DoesAt (λ spot. QuarantinesMessageFile spot (D.state disk.old) result (D.state disk.new))
        (DoesNothing (D.state disk.old) result (D.state disk.new)) (slice_get spots.now number) }
{
    match spots.get(number) {
        Some(Some(spot)) => quarantine_message_file(disk, spot, why),
        Some(None) => Ok(()),
        None => Ok(()),
    }
}

/// Gives message file `number` of a run back, if the run takes care of it. If another message file of the run
/// has come under its name, it stays.
fn give_back_at<D: MessageDisk>(
    disk: &mut D,
    others: Others<'_>,
    number: usize,
) -> Result<(), DiskFault>
    requires { AreKnown others.taken.now others.spots.now }
    ensures { DoesAt (λ spot. (D.state disk.new ≡ D.state disk.old)
        ⊎ (HasComeAlone others.entry.spots.now number spot.waiting × GivesMessageFileBack spot (D.state disk.old) (D.state disk.new)))
        (DoesNothing (D.state disk.old) result (D.state disk.new)) (slice_get others.entry.spots.now number) }
{
    match others.spots.get(number) {
        Some(Some(spot)) => give_back_if_alone(disk, others, number, spot),
        Some(None) => Ok(()),
        None => Ok(()),
    }
}

/// Gives `spot`, message file `number` of a run, back, if no other message file of the run has come under its
/// name.
fn give_back_if_alone<D: MessageDisk>(
    disk: &mut D,
    others: Others<'_>,
    number: usize,
    spot: &Spot,
) -> Result<(), DiskFault>
    requires known { AreKnown others.taken.now others.spots.now }
    requires here { slice_get others.spots.now number ≡ Some (Some spot.now) }
    ensures { (D.state disk.new ≡ D.state disk.old)
        ⊎ (HasComeAlone others.entry.spots.now number spot.now.waiting × GivesMessageFileBack spot.now (D.state disk.old) (D.state disk.new)) }
{
    if !is_alone(others, number, spot) {
        return Ok(());
    }
    give_message_file_back(disk, spot)
}

/// If it returns true, each other message file of a run than `spot`, which is message file `number`, has come
/// under another name.
fn is_alone(others: Others<'_>, number: usize, spot: &Spot) -> bool
    requires known { AreKnown others.taken.now others.spots.now }
    requires here { slice_get others.spots.now number ≡ Some (Some spot.now) }
    ensures { result ≡ true → HasComeAlone others.entry.spots.now number spot.now.waiting }
{
    match others.taken {
        Some(taken) => taken.is_alone(spot),
        None => has_come_alone(others.spots, number, spot.waiting()),
    }
}

/// Returns true if each other message file of `spots` than `number` has come under another name than `path`.
fn has_come_alone(spots: &[Option<Spot>], number: usize, path: &[u8]) -> bool
    ensures { result ≡ true → HasComeAlone spots.now number path.now }
{
    for other in 0..spots.len() {
        if other != number && has_come_as(path, &spots[other]) {
            return false;
        }
    }
    true
}

/// Returns true if a message file has come under the name `path`.
fn has_come_as(path: &[u8], spot: &Option<Spot>) -> bool
    ensures { result ≡ has_come_as path.now spot.now }
{
    match spot {
        Some(spot) => path == spot.waiting(),
        None => false,
    }
}
