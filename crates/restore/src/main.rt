// Restores a backup of an RL01 pack, which stands on cards, onto a whole pack in memory: what can be read is copied, then damaged sectors are mended and all is
// copied again, and each time the two packs are compared.
#![tactic(auto)]

mod report;
mod sample;

use backup::copy::{LeftOut, copy_pack};
use backup::mend::mend_sector;
use media::kinds::Kind;
use media::same::same;
use media::shelf::SECTOR_WORDS;
use report::{say_copied, say_same};
use sample::sample_cards;
use shelves::cards::CardShelf;
use shelves::flat::FlatShelf;
use std::alloc::Global;

const KIND: Kind = Kind::Rl01;

fn main(rt: HostRuntime) -> anyhow::Result<()> {
    restore(&rt, rt.alloc())
}

fn restore(rt: &impl Print, heap: Global) -> anyhow::Result<()> {
    let mut cards = sample_cards(heap)?;
    let mut words = vec![in heap; 0u16; usize::from(KIND.blocks()) * SECTOR_WORDS]?;
    let count = cards.len();
    println!(rt;
        "A backup of an RL01 pack, {count} sectors on cards, is restored onto a whole pack."
    )?;
    let kind = u8::from(KIND);
    let mut backup = CardShelf::new([kind, 0, 0, 0, 0, 0, 0, 0], &mut cards);
    let mut pack = FlatShelf::new(kind, &mut words);

    let left_out = copy_pack(heap, &backup, 0, &mut pack, 0)?;
    say_copied(rt, "First", KIND, &left_out)?;
    say_same(rt, same(&backup, 0, &pack, 0)?)?;

    let mended = mend_damaged(&mut backup, &left_out)?;
    println!(rt; "Mended {mended} sectors with damaged data by a store of their own words.")?;

    let left_out = copy_pack(heap, &backup, 0, &mut pack, 0)?;
    say_copied(rt, "Second", KIND, &left_out)?;
    say_same(rt, same(&backup, 0, &pack, 0)?)
}

// Mends those of the skipped sectors whose data is damaged, and answers how many.
fn mend_damaged(backup: &mut CardShelf, left_out: &[LeftOut]) -> anyhow::Result<usize> {
    for left in left_out.iter().filter(|left| left.mark.damaged) {
        mend_sector(backup, 0, left.block)?;
    }
    Ok(left_out.iter().filter(|left| left.mark.damaged).count())
}
