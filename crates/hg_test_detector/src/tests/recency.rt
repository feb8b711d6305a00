ghost use Rattle.std.specs.Prelude.{◌≡◌, [], ◌∷◌, IfOk};
ghost use Rattle.lru.specs.LruCache.{lru_cache};

use crate::tests::own::Own;
use hg_cache::Recency;
use std::alloc::{AllocError, Global};
use std::process::Abort;
use std::test::Fail;

/// Inserts three keys into an order that is empty, that of the greatest place last. The first two have one hint.
fn insert_three(order: &mut Recency) -> Result<(), AllocError>
    requires { order.old ≡ lru_cache [] 4 }
    ensures { IfOk result (λ done. order.new ≡ lru_cache ((30, 2) ∷ (16394, 1) ∷ (10, 0) ∷ []) 4) }
{
    order.insert(10, 0)?;
    order.insert(16_394, 1)?;
    order.insert(30, 2)
}

/// An order of those keys.
fn three_keys(alloc: Global) -> Result<Own<Recency>, AllocError>
    ensures { IfOk result (λ made. made.it ≡ lru_cache ((30, 2) ∷ (16394, 1) ∷ (10, 0) ∷ []) 4) }
{
    let mut own = Own {
        it: Recency::new(alloc, 4)?,
    };
    insert_three(&mut own.it)?;
    Ok(own)
}

/// Whether so many keys are in order from one to another.
fn is(rt: &impl Abort, order: &Recency, count: u32, newest: (u64, u32), oldest: (u64, u32)) {
    assert!(rt; order.len() == count);
    assert!(rt; order.newest() == Some(newest));
    assert!(rt; order.oldest() == Some(oldest));
}

/// Whether a place was answered so.
fn answers(rt: &impl Abort, found: Option<u32>, wanted: Option<u32>) {
    assert!(rt; found == wanted);
}

// A test, since a pool shows only which page it evicts.
#[test]
fn keeps_keys_in_the_order_of_their_use(rt: HostRuntime) -> Result<(), Fail> {
    let mut own = three_keys(rt.alloc())?;
    let order = &mut own.it;
    assert!(rt; order.older(2) == Some((16_394, 1)));
    assert!(rt; order.most() == 4);
    is(&rt, order, 3, (30, 2), (10, 0));
    answers(&rt, order.place(10), Some(0));
    answers(&rt, order.place(16_394), Some(1));
    answers(&rt, order.place(20), None);
    is(&rt, order, 3, (30, 2), (10, 0));
    answers(&rt, order.promote(10), Some(0));
    answers(&rt, order.promote(10), Some(0));
    answers(&rt, order.promote(20), None);
    is(&rt, order, 3, (10, 0), (16_394, 1));
    answers(&rt, order.remove(10), Some(0));
    answers(&rt, order.remove(10), None);
    answers(&rt, order.place(10), None);
    is(&rt, order, 2, (30, 2), (16_394, 1));
    order.insert(20, 0)?;
    is(&rt, order, 3, (20, 0), (16_394, 1));
    Ok(())
}
