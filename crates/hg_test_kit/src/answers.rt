//! What a line answers, as text.

use crate::digits::digit;
use crate::text::Text;
use crate::tokens::Halt;
use hg_gate::GateFault;
use hg_model::report::Report;
use hg_model::verdict::Refusal;
use hg_wire::report::put_report_line;

/// The answer of a line that was done, where it has nothing else to tell.
pub fn put_ok(out: &mut Text) {
    if out.bytes().is_empty() {
        out.put(b"ok");
    }
}

/// Two hexadecimal digits, with capital letters.
pub fn put_byte(byte: u8, out: &mut Text) {
    out.put(&[digit(byte / 16, b'A'), digit(byte % 16, b'A')]);
}

/// Bytes in hexadecimal, or `none`.
pub fn put_bytes(bytes: &[u8], out: &mut Text) {
    let [first, others @ ..] = bytes else {
        out.put(b"none");
        return;
    };
    put_byte(*first, out);
    for byte in others {
        out.put(b" ");
        put_byte(*byte, out);
    }
}

/// `refused CODE`, and for a gap the number that is next.
pub fn put_refusal(refusal: Refusal, out: &mut Text) {
    out.put_number(b"refused ", u64::from(refusal.code()));
    if let Refusal::Gap(next) = refusal {
        out.put_number(b" next ", next);
    }
}

/// The answer of a line that was halted, where it has no number.
fn words_of(halt: Halt) -> &'static str {
    match halt {
        Halt::Misspelt => "not understood",
        Halt::Closed => "nothing is open",
        Halt::NotEmpty => "not empty",
        Halt::Fault(GateFault::Broken) => "broken",
        Halt::Fault(GateFault::Damaged) => "damaged",
        Halt::Fault(GateFault::DeviceFault) => "device fault",
        Halt::Memory | Halt::Fault(GateFault::OutOfMemory) => "out of memory",
        Halt::Refused(_) | Halt::Said => "",
    }
}

/// The answer of a line that was halted.
pub fn put_halt(halt: Halt, out: &mut Text) {
    match halt {
        Halt::Refused(refusal) => put_refusal(refusal, out),
        _ => out.put(words_of(halt).as_bytes()),
    }
}

/// The line of the k-th race.
pub fn put_report(k: u64, report: &Report, out: &mut Text) {
    if put_report_line(k, report, out.bytes_mut()).is_err() {
        out.note_missing();
    }
}
