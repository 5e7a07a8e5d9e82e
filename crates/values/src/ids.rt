// The ids of masks and of ranges. The allocator is lent to each call.
use id_allocator::IdAllocator;
use refusal::Refusal;
use std::io;

pub(crate) fn of_masks(rt: &impl Print) -> io::Result<()> {
    mask(rt, 0x100, 6, 10)?;
    mask(rt, 0x4400000, 0x1fffff, 5)?;
    mask(rt, 7, 0, 1)?;
    mask(rt, 0, 1, 3)?;
    mask(rt, 5, 0xff, 4)?;
    mask(rt, 0, 5, 10)?;
    mask(rt, 0, 0x80000000, 3)
}

fn mask(rt: &impl Print, base: u32, bits: u32, most: u32) -> io::Result<()> {
    print!(rt; "mask {base} {bits}")?;
    run(rt, IdAllocator::new(base, bits), most)
}

pub(crate) fn of_ranges(rt: &impl Print) -> io::Result<()> {
    range(rt, 0x200, 3)?;
    range(rt, 0, 1)?;
    range(rt, 5, 0)?;
    range(rt, 0, 2)?;
    range(rt, 0xfffffffc, 2)?;
    range(rt, 0xfffffffd, 2)?;
    range(rt, 0xfffffffe, 2)?;
    range(rt, 0, 0x80000001)
}

// A range for an allocator of step 2.
fn range(rt: &impl Print, start: u32, count: u32) -> io::Result<()> {
    print!(rt; "range {start} {count}")?;
    run(rt, ranged(start, count), 5)
}

fn ranged(start: u32, count: u32) -> Result<IdAllocator, Refusal> {
    let mut ids = IdAllocator::new(0x100, 6)?;
    id_allocator::update_xid_range(&mut ids, start, count)?;
    Ok(ids)
}

// At most so many ids, up to the first refusal, and the end of the line.
fn run(rt: &impl Print, answer: Result<IdAllocator, Refusal>, most: u32) -> io::Result<()> {
    match answer {
        Ok(ids) => all(rt, ids, most)?,
        Err(refusal) => refused(rt, refusal)?,
    }
    println!(rt;)
}

fn all(rt: &impl Print, from: IdAllocator, most: u32) -> io::Result<()> {
    let mut ids = from;
    for _ in 0..most {
        match id_allocator::generate_id(&mut ids) {
            Ok(id) => print!(rt; " {id}")?,
            Err(refusal) => return refused(rt, refusal),
        }
    }
    Ok(())
}

fn refused(rt: &impl Print, refusal: Refusal) -> io::Result<()> {
    print!(rt; " refused {}", refusal.number())
}
