//! Checkpoints of a pool, each of which ends where the next one begins.

ghost use Rattle.std.specs.Prelude.{ℕ};
ghost use Rattle.hg_pool.specs.Kept.{AreWithin};

use hg_disk::Disk;
use hg_model::verdict::Refusal;
use hg_pages::EncodedPage;
use hg_pool::Pool;

/// Hands in a page.
fn put<D: Disk>(pool: &mut Pool<D>, page: &EncodedPage) -> Result<(), Refusal>
    ensures { (n m : ℕ) → AreWithin pool.old.frames n m → AreWithin pool.new.frames n m }
{
    pool.put(page)?;
    Ok(())
}

/// Writes the page with the least number of those that wait, and answers whether there is one.
fn write_one<D: Disk>(pool: &mut Pool<D>) -> Result<bool, Refusal>
    ensures { (n m : ℕ) → AreWithin pool.old.frames n m → AreWithin pool.new.frames n m }
{
    let Some(job) = pool.take_job() else {
        return Ok(false);
    };
    let Ok(page) = job.encode() else {
        return Err(Refusal::OutOfMemory);
    };
    put(pool, &page)?;
    Ok(true)
}

/// Writes at most so many of the pages that wait.
fn write_waiting<D: Disk>(pool: &mut Pool<D>, most: usize) -> Result<(), Refusal>
    ensures { (n m : ℕ) → AreWithin pool.old.frames n m → AreWithin pool.new.frames n m }
{
    for _ in 0..most {
        if !write_one(pool)? {
            return Ok(());
        }
    }
    Ok(())
}

/// Writes the rest of the pages that wait, seals them and opens their root. A page that waits is in memory, or has a copy: a block that
/// covers it takes it out of memory.
fn end<D: Disk>(pool: &mut Pool<D>) -> Result<(), Refusal>
    ensures { (n m : ℕ) → AreWithin pool.old.frames n m → AreWithin pool.new.frames n m }
{
    write_waiting(pool, pool.frames().saturating_add(pool.copies()))?;
    if !pool.all_written() {
        return Err(Refusal::Broken);
    }
    pool.seal()?;
    pool.root_opened();
    Ok(())
}

/// Freezes the map, and writes half as many pages as are in memory. The others wait while events come in.
fn begin<D: Disk>(pool: &mut Pool<D>) -> Result<(), Refusal>
    ensures { (n m : ℕ) → AreWithin pool.old.frames n m → AreWithin pool.new.frames n m }
{
    pool.freeze()?;
    write_waiting(pool, pool.frames() / 2)
}

/// Ends the checkpoint that was begun, and begins the next. At the first one, there is none to end.
pub fn checkpoint<D: Disk>(pool: &mut Pool<D>) -> Result<(), Refusal>
    ensures { (n m : ℕ) → AreWithin pool.old.frames n m → AreWithin pool.new.frames n m }
{
    end(pool)?;
    begin(pool)
}
