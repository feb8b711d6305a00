//! Replies in words.

use hg_protocol::message::FrameFault;
use hg_protocol::reply::Reply;
use hg_test_kit::text::Text;

/// Appends a fault of a stream.
pub fn put_fault(fault: FrameFault, out: &mut Text) {
    match fault {
        FrameFault::Length => out.put(b" fault length"),
        FrameFault::Body => out.put(b" fault body"),
    }
}

/// Appends a reply in words.
pub fn tell_reply(reply: &Reply, out: &mut Text) {
    match reply {
        Reply::Welcome { last } => out.put_number(b" welcome ", *last),
        Reply::Accepted { number } => out.put_number(b" accepted ", *number),
        Reply::Duplicate { last } => out.put_number(b" duplicate ", *last),
        Reply::Refused {
            number,
            code,
            expected,
        } => {
            out.put_number(b" refused ", *number);
            out.put_number(b" ", u64::from(*code));
            out.put_number(b" ", *expected);
        }
        Reply::Ack { number } => out.put_number(b" ack ", *number),
        Reply::Line { line } => {
            out.put(b" line ");
            out.put_hex(line.as_slice());
        }
        Reply::Fault { code } => out.put_number(b" fault ", u64::from(*code)),
        Reply::Lines { .. } => out.put(b" lines"),
        Reply::Nothing => out.put(b" nothing"),
    }
}
