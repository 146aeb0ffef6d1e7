//! The folder into which a run puts its messages.

use ill_key::Key;

/// The folder into which messages are put, and the key with which they are sealed, if there is one.
#[derive(Clone, Copy)]
pub struct Outlet<'a> {
    /// The path of the folder.
    pub folder: &'a str,
    /// The key of the letters in which they leave, if there is one.
    pub key: Option<&'a Key>,
}

impl<'a> Outlet<'a> {
    /// Returns the outlet into `folder`, in which each message leaves in a message file of its own.
    pub fn plain(folder: &'a str) -> Outlet<'a> {
        Outlet { folder, key: None }
    }

    /// Returns the outlet into `folder`, in which messages leave in letters that are sealed with `key`.
    pub fn sealed(folder: &'a str, key: &'a Key) -> Outlet<'a> {
        Outlet {
            folder,
            key: Some(key),
        }
    }
}
