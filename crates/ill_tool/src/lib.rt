//! The commands of `ill`: a request is run, and ends with an exit status. The crate exports the engines of the commands
//! too, the types that these take and return, and laws on shelves and possible actions.
#![tactic(auto)]

mod exits;
mod help;
mod simulate;
mod words;

pub use ill_der::DerFault;
pub use ill_desk::act::{run_act, run_desk_act};
pub use ill_desk::new::run_desk_new;
pub use ill_desk::send::{run_desk_send, run_send};
pub use ill_desk::take::{TakeForm, run_desk_take, run_desk_take_as, run_take};
pub use ill_figures::figures::run_desk_figures;
pub use ill_files::shelf::{desk_name, groups_have_their_own_desks};
pub use ill_inbox::dates::run_desk_dates;
pub use ill_inbox::inbox::run_desk_inbox;
pub use ill_list::list::run_desk_list;
pub use ill_list::wanted::{Wanted, Which};
pub use ill_news::news::run_desk_news;
pub use ill_night::asked::asked_by;
pub use ill_night::copy::run_desk_copy;
pub use ill_night::night::Dates;
pub use ill_night::outbox::{run_desk_outbox, run_desk_outbox_stream};
pub use ill_night::outgoing::Outgoing;
pub use ill_night::retire::run_desk_retire;
pub use ill_night::verdict::{Batch, Delay, InLetter, MessageFile, Unfit, Verdict};
pub use ill_rows::listed::Listed;
pub use ill_saved::DeskFault;
pub use ill_show::loan::{LoanForm, LoanView, run_desk_loan};
pub use ill_show::status::{run_desk_status, run_desk_status_as, run_status};
pub use ill_show::verify::run_desk_verify;
pub use ill_slip::slip::run_desk_slip;
pub use ill_text::check::run_check;
pub use ill_text::fault::ToolFault;
pub use ill_text::form::Form;
pub use ill_text::show::{run_show, run_show_as};
pub use ill_words::possible::{
    expire_is_possible_when_it_has_expired, overdue_is_possible_when_it_is_due,
    requester_verbs_are_possible,
};
pub use simulate::{run_simulate, run_simulate_desks};
pub use words::run_words;
