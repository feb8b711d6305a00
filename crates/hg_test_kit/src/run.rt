//! The loop over the lines of scenarios.

use crate::answers::{put_halt, put_ok};
use crate::text::Text;
use crate::tokens::Halt;
use std::alloc::Global;

/// How many bytes an answer has room for beforehand: it is given also where all memory is refused.
const ROOM_OF_ANSWER: usize = 4_096;

/// What the lines of a scenario act on.
pub trait World {
    /// Does what a line asks for, and answers it. Where it tells nothing, the answer is `ok`.
    fn perform(&mut self, order: &str, out: &mut Text) -> Result<(), Halt>;

    /// Is again as a new one.
    fn clear(&mut self);
}

/// What a line asks for, and what it is to answer: LINE itself of `expect LINE`, else `ok` where nothing is told.
fn split(line: &str) -> (&str, &str) {
    match line.split_once(" -> ") {
        Some((order, wanted)) => (order, wanted),
        None => (line, line.strip_prefix("expect ").unwrap_or("ok")),
    }
}

/// How the scenarios went so far, and the one that is under way.
#[derive(Drop)]
struct Course<'a> {
    passed: u64,
    failed: u64,
    name: &'a str,
    has_failed: bool,
    /// What its last line answered.
    answer: Text,
}

/// Makes one line, and answers it.
fn answer(world: &mut impl World, order: &str, out: &mut Text) {
    out.clear();
    match world.perform(order, out) {
        Ok(()) => put_ok(out),
        Err(Halt::Said) => {}
        Err(halt) => {
            out.clear();
            put_halt(halt, out);
        }
    }
}

/// Ends a scenario.
fn end(course: &mut Course, out: &mut Text) {
    if course.has_failed {
        course.failed = course.failed.wrapping_add(1);
    } else if !course.name.is_empty() {
        course.passed = course.passed.wrapping_add(1);
        out.put(b"passed ");
        out.put(course.name.as_bytes());
        out.put(b"\n");
    }
}

/// Begins a scenario.
fn begin<'a>(world: &mut impl World, course: &mut Course<'a>, name: &'a str) {
    course.name = name;
    course.has_failed = false;
    world.clear();
}

/// Makes one line of a scenario, and compares its answer.
fn make(world: &mut impl World, course: &mut Course, number: u64, line: &str, out: &mut Text) {
    let (order, wanted) = split(line);
    answer(world, order, &mut course.answer);
    if course.answer.is_whole() && course.answer.bytes() == wanted.as_bytes() {
        return;
    }
    course.has_failed = true;
    out.put(b"FAILED ");
    out.put(course.name.as_bytes());
    out.put_number(b"\n  line ", number);
    out.put(b": ");
    out.put(line.as_bytes());
    out.put(b"\n  seen: ");
    out.put(course.answer.bytes());
    out.put(b"\n");
}

/// Takes one line of the text.
fn take<'a>(
    world: &mut impl World,
    course: &mut Course<'a>,
    number: u64,
    line: &'a str,
    out: &mut Text,
) {
    if let Some(name) = line.strip_prefix("scenario ") {
        end(course, out);
        begin(world, course, name);
    } else if !course.has_failed && !line.is_empty() && !line.starts_with("#") {
        make(world, course, number, line, out);
    }
}

/// Runs the scenarios of a text, appends a line for each and how many passed and failed, and tells whether none failed.
pub fn run_scenarios(alloc: Global, world: &mut impl World, text: &str, out: &mut Text) -> bool {
    let mut course = Course {
        passed: 0,
        failed: 0,
        name: "",
        has_failed: false,
        answer: Text::with_room(alloc, ROOM_OF_ANSWER),
    };
    let mut number = 0_u64;
    for line in text.lines() {
        number = number.wrapping_add(1);
        take(world, &mut course, number, line.trim(), out);
    }
    end(&mut course, out);
    out.put_decimal(course.passed);
    out.put_number(b" passed, ", course.failed);
    out.put(b" failed\n");
    course.failed == 0
}
