//! What a reply tells a reader beside a page.

ghost use Rattle.std.specs.Prelude.{◌≡◌, []};
ghost use Rattle.ill_page.specs.declared.reply.Status.TheVariants.{Good};
ghost use Rattle.ill_web.specs.Troubles.{telling, tells};

use ill_page::Status;

/// What a reply tells a reader beside a page: its status, and a notice, which may be empty.
#[derive(Clone, Copy)]
pub struct Told<'a> {
    /// The status of the reply.
    pub status: Status,
    /// The notice.
    pub notice: &'a str,
}

impl Told<'_> {
    /// Returns the status `Good` with an empty notice, for a page that was asked for.
    pub fn nothing<'a>() -> Told<'a>
        ensures { telling result ≡ tells Good [] }
    {
        Told {
            status: Status::Good,
            notice: "",
        }
    }
}
