//! The text and the exit status of each status.

use gadget_text::Header;
use gadget_tree::{FileError, What};
use mask_terms::{Opt, UsageKind};
use report::{Line, NotFor, Status, exit_status, status_text};
use wire_table::WireError;

// Statuses that no other table has, and the text and the exit status of each.
const STATUSES: [(Status, &[u8], u8); 18] = [
    (Status::Yes, b"", 0),
    (Status::No, b"", 1),
    (Status::Listed, b"", 0),
    (
        Status::Usage(UsageKind::Words),
        b"mask: usage: mask TASK ARG [options]",
        2,
    ),
    (Status::Usage(UsageKind::Task), b"mask: unknown task", 2),
    (Status::Usage(UsageKind::Argument), b"mask: bad argument", 2),
    (
        Status::SizeNotUsed,
        b"mask: --size and --wires are for rpc and rpe",
        2,
    ),
    (Status::TooLong, b"mask: file too long", 3),
    (
        Status::NotForGadget(NotFor::SeveralOutputs),
        b"mask: sni needs one output",
        4,
    ),
    (
        Status::NotForGadget(NotFor::ManyInputs),
        b"mask: rpe needs at most two inputs",
        4,
    ),
    (
        Status::NotForGadget(NotFor::OrderTooLarge),
        b"mask: order too large",
        4,
    ),
    (
        Status::NotForGadget(NotFor::ManyEvents(18446744073709551615)),
        b"mask: too many events: 18446744073709551615",
        4,
    ),
    (
        Status::Budget(18446744073709551615),
        b"mask: over budget: 18446744073709551615",
        5,
    ),
    (Status::ReadFault, b"mask: read failed", 6),
    (Status::WriteFault, b"mask: write failed", 7),
    (Status::OutOfMemory, b"mask: out of memory", 8),
    (
        Status::File(FileError::OutOfMemory),
        b"mask: out of memory",
        8,
    ),
    (
        Status::Wires(WireError::OutOfMemory),
        b"mask: out of memory",
        8,
    ),
];

// What an option is refused for.
const OPTIONS: [(Opt, &[u8]); 6] = [
    (Opt::Size, b"mask: bad value of --size"),
    (Opt::Workers, b"mask: bad value of --workers"),
    (Opt::Block, b"mask: bad value of --block"),
    (Opt::Budget, b"mask: bad value of --budget"),
    (Opt::FirstWords, b"mask: bad value of --words"),
    (Opt::Wires, b"mask: bad value of --wires"),
];

// What a file is refused for.
const FILES: [(FileError, &[u8]); 19] = [
    (
        FileError::NotText(4294967295),
        b"mask: line 4294967295: not text",
    ),
    (FileError::Syntax(10), b"mask: line 10: syntax"),
    (FileError::HeaderTwice(2), b"mask: line 2: header twice"),
    (
        FileError::HeaderMissing(Header::Profile),
        b"mask: no #PROFILE line",
    ),
    (
        FileError::HeaderMissing(Header::Shares),
        b"mask: no #SHARES line",
    ),
    (FileError::HeaderMissing(Header::In), b"mask: no #IN line"),
    (
        FileError::HeaderMissing(Header::Randoms),
        b"mask: no #RANDOMS line",
    ),
    (FileError::HeaderMissing(Header::Out), b"mask: no #OUT line"),
    (FileError::BadNumber(1), b"mask: line 1: bad number"),
    (FileError::BadName(2), b"mask: line 2: bad name"),
    (FileError::NameTwice(7), b"mask: line 7: name twice"),
    (FileError::Unknown(6), b"mask: line 6: unknown name"),
    (
        FileError::OutputMissing(1, 15),
        b"mask: output 1 share 15 is not assigned",
    ),
    (FileError::TooMany(What::Shares), b"mask: too many shares"),
    (FileError::TooMany(What::Inputs), b"mask: too many inputs"),
    (FileError::TooMany(What::Outputs), b"mask: too many outputs"),
    (FileError::TooMany(What::Randoms), b"mask: too many randoms"),
    (
        FileError::TooMany(What::Nesting),
        b"mask: too many parentheses",
    ),
    (
        FileError::TooMany(What::Variables),
        b"mask: too many variables",
    ),
];

// What a gadget is refused for.
const WIRES: [(WireError, &[u8]); 3] = [
    (
        WireError::TooWide {
            var: 6,
            line: 4294967295,
        },
        b"mask: line 4294967295: too many monomials",
    ),
    (
        WireError::RandomProduct {
            var: 6,
            line: 4294967295,
        },
        b"mask: line 4294967295: random in a product",
    ),
    (
        WireError::Degree {
            var: 6,
            line: 4294967295,
        },
        b"mask: line 4294967295: degree above 2",
    ),
];

// Whether a status has this text and this exit status.
fn has(status: &Status, text: &[u8], exit: u8) -> bool {
    let mut line = Line::new();
    status_text(status, &mut line);
    line.bytes() == text && exit_status(status) == exit
}

#[test]
fn each_status_has_its_text_and_exit_status(rt: HostRuntime) {
    for (status, text, exit) in STATUSES {
        assert!(rt; has(&status, text, exit), "at {status:?}");
    }
}

#[test]
fn a_bad_value_is_said_of_its_option(rt: HostRuntime) {
    for (option, text) in OPTIONS {
        let status = Status::Usage(UsageKind::Value(option));
        assert!(rt; has(&status, text, 2), "at {status:?}");
    }
}

#[test]
fn each_refusal_of_a_file_says_why(rt: HostRuntime) {
    for (error, text) in FILES {
        let status = Status::File(error);
        assert!(rt; has(&status, text, 3), "at {status:?}");
    }
}

#[test]
fn each_refusal_of_a_gadget_says_why(rt: HostRuntime) {
    for (error, text) in WIRES {
        let status = Status::Wires(error);
        assert!(rt; has(&status, text, 3), "at {status:?}");
    }
}
