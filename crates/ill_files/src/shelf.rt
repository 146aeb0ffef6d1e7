//! A shelf: a folder of desks of one role, one for each group of transactions. The group of a transaction names its
//! desk.

ghost use Rattle.std.specs.Prelude.{Decides, IfOk, IfSome, OnOk, ◌≡◌, ◌++◌, codes, map, ℕ, List, IfErr, string_bytes};
ghost use Rattle.ill_files.specs.ShelfNames.{AreDeskNames, AreOnShelf, IsNamedOnShelf, IsDeskName, desk_name, desk_path, group_in, own_path, retired_path};
ghost use Rattle.ill_values.specs.Text.{IsQualifier};
ghost use Rattle.ill_record.specs.declared.role.Role.{Role};
ghost use Rattle.ill_text.specs.Fault.{IsOpenFault};

use crate::open::open;
use crate::paths::{RETIRED, is_there, joined, raw_names};
use ill_der::{ApduView, BodyView};
use ill_saved::{DeskFault, Role};
use ill_text::fault::{STORE_FAILED, ToolFault};
use ill_values::{OutOfMemory, TxnId};
use percent_encoding::{AsciiSet, NON_ALPHANUMERIC, ascii_set, percent_decode, percent_encode};
use std::alloc::Global;
use std::io;
use std::path::Path;
use std::rt::Files;

/// The name of the shelf's own desk, which has no loans. Its role is the role of the shelf. It takes message files that
/// no desk of a group can take.
pub(crate) const OWN: &str = ".shelf";

/// The name, before `.mail`, of the folder of message files that are not sorted yet.
const UNSORTED: &str = ".unsorted";

/// The bytes that become an escape in the name of a desk. Letters, digits, the hyphen and the underscore do not.
pub(crate) const ESCAPED: AsciiSet = ascii_set!(NON_ALPHANUMERIC.remove(b'-').remove(b'_'));

/// Returns true if `name` is that of a shelf's own desk, or of the desk of a group.
pub fn is_named_on_shelf(alloc: Global, name: &str) -> Result<bool, OutOfMemory>
    ensures { IfOk result (λ is_named. Decides is_named (IsNamedOnShelf name.now)) }
{
    let is_requesters = is_desk_name(alloc, Role::Requester, name)?;
    let is_responders = is_desk_name(alloc, Role::Responder, name)?;
    Ok(name == OWN || is_requesters || is_responders)
}

/// Returns the name of the file of the desk of `group`.
pub fn desk_name(alloc: Global, role: Role, group: &[u8]) -> Result<String, OutOfMemory>
    ensures { IfOk result (λ name. string_bytes name ≡ desk_name role group.now) }
{
    let mut name = String::new(alloc);
    percent_encode(group, ESCAPED).append_to(&mut name)?;
    name.push_str(".")?;
    name.push_str(role.name())?;
    Ok(name)
}

/// A shelf.
#[derive(Clone, Copy)]
pub struct Shelf<'a> {
    /// The path of its folder.
    pub folder: &'a str,
    /// The role of its desks.
    pub role: Role,
}

impl<'a> Shelf<'a> {
    /// Returns the shelf in `folder`, with the role of its own desk. Fails if `folder` is empty, or the own desk cannot
    /// be loaded.
    pub fn open<T: Files>(rt: &T, alloc: Global, folder: &'a str) -> Result<Shelf<'a>, ToolFault>
        ensures folder { IfOk result (λ shelf. shelf.folder.now ≡ folder.now) }
        ensures faults { IfErr result IsOpenFault }
    {
        if folder.is_empty() {
            return Err(STORE_FAILED);
        }
        let own = own_path(alloc, folder)?;
        let desk = open(rt, alloc, own.as_str())?;
        let role = desk.sides().role();
        drop(desk);
        Ok(Shelf { folder, role })
    }

    /// Returns the path of the desk of `group`.
    pub fn desk_of(&self, alloc: Global, group: &[u8]) -> Result<String, OutOfMemory>
        ensures { IfOk result (λ path. string_bytes path ≡ desk_path self.now.folder.now self.now.role group.now) }
    {
        let name = desk_name(alloc, self.role, group)?;
        joined(alloc, self.folder, name.as_str())
    }

    /// Returns the path of the shelf's own desk.
    pub fn own_desk(&self, alloc: Global) -> Result<String, OutOfMemory>
        ensures { IfOk result (λ path. string_bytes path ≡ own_path self.now.folder.now) }
    {
        own_path(alloc, self.folder)
    }

    /// Returns a path without a desk. The folder of message files that are not sorted yet is beside it.
    pub fn unsorted(&self, alloc: Global) -> Result<String, OutOfMemory> {
        Ok(format!(in alloc; "{}/{UNSORTED}", self.folder)?)
    }

    /// Returns the paths of the desks of all groups that are not retired, in the order of their names.
    pub fn desks<T: Files>(&self, rt: &T, alloc: Global) -> Result<Vec<String>, ToolFault>
        ensures on_shelf { IfOk result (λ desks. AreOnShelf self.now.folder.now (map (λ path. string_bytes path) desks.items)) }
        ensures faults { IfErr result IsOpenFault }
    {
        Ok(desks_in(rt, alloc, self.folder, self.role)?)
    }
}

/// Returns the path of the own desk of the shelf in `folder`.
pub fn own_path(alloc: Global, folder: &str) -> Result<String, OutOfMemory>
    ensures { IfOk result (λ path. string_bytes path ≡ own_path folder.now) }
{
    joined(alloc, folder, OWN)
}

/// Returns true if there is a shelf in `folder`.
pub fn is_shelf<T: Files>(rt: &T, alloc: Global, folder: &str) -> io::Result<bool> {
    let own = own_path(alloc, folder)?;
    is_there(rt, own.as_str())
}

/// Returns the paths of the desks of `role` in `folder`, in the order of their names. The desks of retired groups are
/// left out.
fn desks_in<T: Files>(rt: &T, alloc: Global, folder: &str, role: Role) -> io::Result<Vec<String>>
    ensures { IfOk result (λ desks. AreOnShelf folder.now (map (λ path. string_bytes path) desks.items)) }
{
    let mut desks = Vec::new(alloc);
    let names = names_of_desks(rt, alloc, folder, role, "")?;
    for name in &names {
        push_unless_retired(&mut desks, rt, folder, name.as_str())?;
    }
    Ok(desks)
}

/// Appends the path of the desk `name` in `folder` to `desks`, unless its group is retired.
#[tactic(auto, using(crate::proofs::DesksLemmas::one_more))]
fn push_unless_retired<T: Files>(
    desks: &mut Vec<String>,
    rt: &T,
    folder: &str,
    name: &str,
) -> io::Result<()>
    ensures { OnOk result (IsNamedOnShelf name.now → AreOnShelf folder.now (map (λ path. string_bytes path) desks.old.items)
        → AreOnShelf folder.now (map (λ path. string_bytes path) desks.new.items)) }
{
    let alloc = *desks.allocator();
    let path = joined(alloc, folder, name)?;
    if is_retired(rt, alloc, path.as_str())? {
        return Ok(());
    }
    desks.push(path)?;
    Ok(())
}

/// Returns the names of the desks of `role` in `folder`, in their order. A file there has the name and then `ending`.
pub fn names_of_desks<T: Files>(
    rt: &T,
    alloc: Global,
    folder: &str,
    role: Role,
    ending: &str,
) -> io::Result<Vec<String>>
    ensures { IfOk result (λ names. AreDeskNames role (map (λ name. string_bytes name) names.items)) }
{
    let mut names = raw_names(rt, alloc, folder)?;
    names.sort()?;
    let mut desks = Vec::new(alloc);
    for name in &names {
        push_desk(&mut desks, role, name, ending)?;
    }
    Ok(desks)
}

/// Appends the text before `ending` in `name` to `desks`, if it is the name of a desk of `role`.
#[tactic(auto, using(crate::proofs::DesksLemmas::one_more))]
fn push_desk(desks: &mut Vec<String>, role: Role, name: &[u8], ending: &str) -> io::Result<()>
    ensures { OnOk result (AreDeskNames role (map (λ name. string_bytes name) desks.old.items)
        → AreDeskNames role (map (λ name. string_bytes name) desks.new.items)) }
{
    let alloc = *desks.allocator();
    match desk_in(alloc, role, name, ending)? {
        Some(desk) => {
            desks.push(String::from_str(alloc, desk)?)?;
            Ok(())
        }
        None => Ok(()),
    }
}

/// Returns the text before `ending` in `name`, if it is the name of a desk of `role`.
fn desk_in<'a>(
    alloc: Global,
    role: Role,
    name: &'a [u8],
    ending: &str,
) -> Result<Option<&'a str>, OutOfMemory>
    ensures { IfOk result (λ desk. IfSome desk (λ desk. IsDeskName role desk.now)) }
{
    let Ok(name) = str::from_utf8(name) else {
        return Ok(None);
    };
    let Some(desk) = name.strip_suffix(ending) else {
        return Ok(None);
    };
    if is_desk_name(alloc, role, desk)? {
        Ok(Some(desk))
    } else {
        Ok(None)
    }
}

/// Returns true if `name` is the name of the desk of `role` of some group.
pub(crate) fn is_desk_name(alloc: Global, role: Role, name: &str) -> Result<bool, OutOfMemory>
    ensures { IfOk result (λ is_name. Decides is_name (IsDeskName role name.now)) }
{
    let group = group_in(alloc, role, name)?;
    if !TxnId::is_qualifier(&group) {
        return Ok(false);
    }
    let own = desk_name(alloc, role, &group)?;
    Ok(own.as_str() == name)
}

/// Returns the group in `name`, if it is the name of a desk of `role`. From another name it returns any bytes.
fn group_in(alloc: Global, role: Role, name: &str) -> Result<Vec<u8>, OutOfMemory>
    ensures { IfOk result (λ group. group.items ≡ group_in role name.now) }
{
    let ending = role.name().len();
    let stem = name.len().saturating_sub(ending).saturating_sub(1);
    let mut group = Vec::new(alloc);
    percent_decode(&name.as_bytes()[..stem]).append_to(&mut group)?;
    Ok(group)
}

/// Returns true if the desk of `role` in `file` of a shelf may take `message`. A group's desk takes the messages of its
/// group. The shelf's own desk takes any message, but a responder's takes no ILL-Request, which would begin a loan
/// there.
pub fn is_for_desk(
    alloc: Global,
    file: &str,
    role: Role,
    message: &ApduView<'_>,
) -> Result<bool, OutOfMemory> {
    let name = Path::new(file).file_name().unwrap_or(file);
    if name == OWN {
        let is_request = matches!(message.body(), BodyView::IllRequest { .. });
        return Ok(role == Role::Requester || !is_request);
    }
    Ok(desk_name(alloc, role, message.group())?.as_str() == name)
}

/// Returns true if the group of the desk in `file` is retired: its mark lies beside that path.
pub fn is_retired<T: Files>(rt: &T, alloc: Global, file: &str) -> io::Result<bool> {
    let mark = retired_path(alloc, file)?;
    is_there(rt, mark.as_str())
}

/// Returns the path of the file that marks the group of the desk in `file` as retired.
pub fn retired_path(alloc: Global, file: &str) -> Result<String, OutOfMemory>
    ensures { IfOk result (λ path. string_bytes path ≡ retired_path file.now) }
{
    let mut path = String::from_str(alloc, file)?;
    path.push_str(RETIRED)?;
    Ok(path)
}

/// Fails with `NoSuchTransaction` if the group of the desk in `file` is retired: no desk has its loans.
pub fn refuse_retired<T: Files>(rt: &T, alloc: Global, file: &str) -> Result<(), ToolFault>
    ensures { IfErr result IsOpenFault }
{
    if is_retired(rt, alloc, file)? {
        return Err(ToolFault::Desk(DeskFault::NoSuchTransaction));
    }
    Ok(())
}

/// Two groups whose desks have one name are one group. So each group has a desk of its own.
pub fn groups_have_their_own_desks()
    ensures { (role : Role) (one other : List ℕ) → IsQualifier one → IsQualifier other →
        desk_name role one ≡ desk_name role other → one ≡ other }
{}
