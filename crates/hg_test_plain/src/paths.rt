//! Paths from segment to segment.

ghost use Rattle.std.specs.Prelude.{◌≡◌};
ghost use Rattle.hg_model.specs.Paths as paths;

use hg_model::segment::Segment;

fn before(segments: &[Segment], segment: u32) -> &[u32]
    ensures { result.now ≡ paths.before segments.now segment }
{
    match segments.get(segment as usize) {
        Some(found) => found.before.as_slice(),
        None => &[],
    }
}

/// Whether a path of at most `edges` edges leads from one segment to another.
fn reaches_within(segments: &[Segment], edges: u32, from: u32, to: u32) -> bool
    ensures { result ≡ paths.reaches_within segments.now edges from to }
{
    if from == to {
        return true;
    }
    if edges == 0 {
        return false;
    }
    for middle in before(segments, to) {
        if reaches_within(segments, edges - 1, from, *middle) {
            return true;
        }
    }
    false
}

pub fn reaches(segments: &[Segment], from: u32, to: u32) -> bool
    ensures { result ≡ paths.reaches segments.now from to }
{
    reaches_within(segments, to, from, to)
}
