//! Prints the texts of faults. Some of them arise in no command line.

use ill_saved::{RecordFault, StoreFault};
use ill_session_kit::telling::begin;
use ill_test_kit::Page;
use ill_tool::{DerFault, DeskFault, ToolFault};
use std::fmt::{Debug, Display};

/// The faults whose texts are printed.
const FAULTS: [ToolFault; 26] = [
    ToolFault::Arguments,
    ToolFault::Der(DerFault::Short(17)),
    ToolFault::Der(DerFault::Tag(15)),
    ToolFault::Der(DerFault::Length(1)),
    ToolFault::Der(DerFault::Field(23)),
    ToolFault::TooMany,
    ToolFault::Script(3),
    ToolFault::Desk(DeskFault::Bytes(DerFault::Tag(0))),
    ToolFault::Desk(DeskFault::Trailing),
    ToolFault::Desk(DeskFault::NoSuchMessage),
    ToolFault::Desk(DeskFault::NotSaved),
    ToolFault::Desk(DeskFault::NoSuchTransaction),
    ToolFault::Desk(DeskFault::DeskFull),
    ToolFault::Desk(DeskFault::Exists),
    ToolFault::Desk(DeskFault::NoRecord),
    ToolFault::Desk(DeskFault::Store(StoreFault::Failed)),
    ToolFault::Desk(DeskFault::Store(StoreFault::TooLarge)),
    ToolFault::Desk(DeskFault::Saved(RecordFault::Short)),
    ToolFault::Desk(DeskFault::Saved(RecordFault::Bad(67_108_863))),
    ToolFault::Desk(DeskFault::Saved(RecordFault::Digest)),
    ToolFault::Desk(DeskFault::Saved(RecordFault::Inconsistent)),
    ToolFault::NotSealed,
    ToolFault::Deferred,
    ToolFault::Read,
    ToolFault::Write,
    ToolFault::OutOfMemory,
];

/// Prints each fault and its text. Then prints the fault out of memory of bytes and of a desk.
pub fn print_texts(page: &mut Page) {
    for fault in &FAULTS {
        print_text(page, fault);
    }
    print_text(page, &DerFault::OutOfMemory);
    print_text(page, &DeskFault::OutOfMemory);
}

/// Prints a fault and its text.
fn print_text<T: Debug + Display>(page: &mut Page, fault: &T) {
    begin(page, "=");
    page.show_parts(fault);
    page.text(": ");
    page.show(fault);
    page.text("\n");
}
