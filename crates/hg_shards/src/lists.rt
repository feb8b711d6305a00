//! A batch in lists, of which a shard sees what concerns it and passes over the rest.

ghost use Rattle.hg_shards.specs.Seeing as seeing;
ghost use Rattle.hg_shards.specs.Sharding.{IsReady};

use crate::routes::{OwnAccess, Placed};
use crate::shard::Shard;
use crate::shards::{Cause, Stop, unaccepted};
use hg_model::event::{Access, Named};

/// What comes next of two lists.
#[derive(Clone, Copy, Debug, PartialEq, Eq, Drop)]
pub enum Next {
    /// An access to words of the part.
    Own(OwnAccess),
    /// An event that every part sees.
    Common(Placed),
    /// Nothing.
    End,
}

/// The event that comes next.
#[inline(always)]
fn next_seen(own: &[OwnAccess], common: &[Placed]) -> Next
    ensures { seeing.ComesNext own.now common.now result }
{
    if own.is_empty() {
        if common.is_empty() {
            return Next::End;
        }
        return Next::Common(common[0]);
    }
    if common.is_empty() {
        return Next::Own(own[0]);
    }
    if common[0].place < own[0].place {
        return Next::Common(common[0]);
    }
    Next::Own(own[0])
}

/// Passes over so many events, and offers an access to words of the part.
#[inline(always)]
fn offer_own(shard: &mut Shard, source: u16, first: u64, gap: u32, own: OwnAccess) -> Option<Cause>
    requires { IsReady shard.old }
    ensures { seeing.OffersNext shard.old source gap (seeing.at_place source first own.place (seeing.event_of own)) result shard.new }
{
    shard.pass_all(source, u64::from(gap));
    let number = first.saturating_add(u64::from(own.place));
    let access = Access {
        t: own.t,
        at: own.at,
        len: own.len,
    };
    unaccepted(shard.touch(source, number, access, own.write))
}

/// Passes over so many events, and offers one that every part sees.
#[inline(always)]
fn offer_common(
    shard: &mut Shard,
    source: u16,
    first: u64,
    gap: u32,
    common: Placed,
) -> Option<Cause>
    requires { IsReady shard.old }
    ensures { seeing.OffersNext shard.old source gap (seeing.at_place source first common.place common.event) result shard.new }
{
    shard.pass_all(source, u64::from(gap));
    let number = first.saturating_add(u64::from(common.place));
    let event = common.event;
    let answer = shard.offer(&Named {
        source,
        number,
        event,
    });
    unaccepted(answer)
}

/// Offers a shard what stands in the lists of its part, in the order of the batch, up to the first event that is not accepted. It passes
/// over the others of `count` events, which `source` numbers from `first` on.
pub(crate) fn offer_lists(
    shard: &mut Shard,
    source: u16,
    first: u64,
    own: &[OwnAccess],
    common: &[Placed],
    count: u32,
) -> Option<Stop>
    requires { IsReady shard.old }
    ensures { seeing.TakesLists shard.old source first own.now common.now count result shard.new }
{
    let mut mine = own;
    let mut all = common;
    let mut next = 0;
    loop {
        match next_seen(mine, all) {
            Next::Own(item) => {
                let gap = item.place.saturating_sub(next);
                if let Some(cause) = offer_own(shard, source, first, gap, item) {
                    let place = item.place as usize;
                    return Some(Stop { place, cause });
                }
                next = item.place.saturating_add(1);
                mine = &mine[1..];
            }
            Next::Common(item) => {
                let gap = item.place.saturating_sub(next);
                if let Some(cause) = offer_common(shard, source, first, gap, item) {
                    let place = item.place as usize;
                    return Some(Stop { place, cause });
                }
                next = item.place.saturating_add(1);
                all = &all[1..];
            }
            Next::End => {
                shard.pass_all(source, u64::from(count.saturating_sub(next)));
                return None;
            }
        }
    }
}
