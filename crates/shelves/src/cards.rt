// A shelf of up to eight packs whose sectors stand on cards.
ghost use Rattle.std.specs.Prelude.{◌≡◌, length, is_some, find, position};
ghost use Rattle.std.specs.List.{slice_get, take_while};
ghost use Rattle.std.specs.Option.{option_copied};
ghost use Rattle.shelves.specs.Cards.{is_of, is_free, overwritten, claimed, card_packs, card_meaning, card_after};
ghost use Rattle.shelves.specs.Laws.{card_lawful};
ghost use Rattle.media.specs.Kinds.{kind_of};
ghost use Rattle.media.specs.Shelf.{sector_check, store_reply, after_store, takes_in};

use media::kinds::Kind;
use media::marks::Mark;
use media::shelf::{SECTOR_WORDS, Shelf, ShelfRefusal, check_sector};

/// The pack number of a card that is free.
pub const FREE: u8 = 255;

/// One sector: its pack, its block, its mark, of which only the two low bits count, and its words. A card with pack 255 is free.
// By a rule of the project a card is a plain record of numbers: a free one has a number for its pack, and the mark is a number.
#[derive(Clone, Copy, PartialEq, Eq, Debug)]
pub struct Card {
    pub pack: u8,
    pub block: u16,
    pub mark: u8,
    pub words: [u16; SECTOR_WORDS],
}

impl Card {
    // Whether this is a sector's card.
    fn is_of(&self, pack: u8, block: u16) -> bool
        ensures { result ≡ is_of pack block self.now }
    {
        self.pack == pack && self.block == block
    }

    fn is_free(&self) -> bool
        ensures { result ≡ is_free self.now }
    {
        self.pack == FREE
    }

    // Puts new words on a sector's card, which then has no damaged data.
    fn overwrite(&mut self, buffer: &[u16])
        requires { length buffer.now ≡ 128 }
        ensures { self.new ≡ overwritten buffer.now self.old }
    {
        self.mark &= 1;
        self.words.copy_from_slice(buffer);
    }

    // Makes this the card of a sector with these words, of which nothing is wrong.
    fn claim(&mut self, pack: u8, block: u16, buffer: &[u16])
        requires { length buffer.now ≡ 128 }
        ensures { self.new ≡ claimed pack block buffer.now self.old }
    {
        self.pack = pack;
        self.block = block;
        self.mark = 0;
        self.words.copy_from_slice(buffer);
    }
}

/// A shelf over lent cards, which a store changes in place. Its packs are those before the first number that is no kind. A sector stands on the
/// first card that has its pack and block; one without a card has zero words and takes while a card is free, and a store gives it the first of these.
#[derive(Drop)]
pub struct CardShelf<'a> {
    kinds: [Option<Kind>; 8],
    cards: &'a mut [Card],
}

// The kind with a number, if there is one. A named function, since with a closure in its place the proof of `new` did not close.
fn known_kind(number: u8) -> Option<Kind>
    ensures { result ≡ kind_of number }
{
    Kind::try_from(number).ok()
}

impl<'a> CardShelf<'a> {
    /// A shelf of packs of these kinds over these cards.
    // Kinds as numbers, since the first that is no kind's ends the row.
    pub fn new(kinds: [u8; 8], cards: &'a mut [Card]) -> CardShelf<'a>
        ensures meaning { card_meaning result ≡ card_packs kinds cards.old }
        ensures lent { result.cards ≡ cards.entry }
    {
        CardShelf {
            kinds: kinds.map(known_kind),
            cards,
        }
    }

    // The kind of a pack, if there is such a pack.
    fn kind_at(&self, pack: u8) -> Option<Kind>
        ensures { result ≡ slice_get (card_meaning self.now).kinds pack }
    {
        // With `get` on the places before `packs`, or with `filter`, the check did not find the proof.
        if usize::from(pack) < self.packs() {
            self.kinds[usize::from(pack)]
        } else {
            None
        }
    }

    // How many packs there are.
    fn packs(&self) -> usize
        ensures { result ≡ length (take_while is_some self.now.kinds) }
    {
        self.kinds.iter().take_while(|kind| kind.is_some()).count()
    }

    // Refuses a buffer that has not 128 words, then a sector that is not there.
    fn check(&self, pack: u8, block: u16, buffer: &[u16]) -> Result<(), ShelfRefusal>
        ensures { result ≡ sector_check (slice_get (card_meaning self.now).kinds pack) block buffer.now }
    {
        check_sector(self.kind_at(pack), block, buffer)
    }

    // The card of a sector, if it has one.
    fn card(&self, pack: u8, block: u16) -> Option<&Card>
        ensures { option_copied result ≡ find (is_of pack block) self.now.cards.now }
    {
        self.cards.iter().find(|card| card.is_of(pack, block))
    }

    // Where a sector's card stands, if it has one.
    fn place(&self, pack: u8, block: u16) -> Option<usize>
        ensures { result ≡ position (is_of pack block) self.now.cards.now }
    {
        self.cards.iter().position(|card| card.is_of(pack, block))
    }

    // Where the first free card stands, if there is one.
    fn free_place(&self) -> Option<usize>
        ensures { result ≡ position is_free self.now.cards.now }
    {
        self.cards.iter().position(|card| card.is_free())
    }
}

impl Shelf for CardShelf<'_> {
    ghost packs = { card_meaning };

    ghost lawful = { λ s. card_lawful s.kinds s.cards.now };

    fn count(&self) -> u8 {
        self.packs() as u8
    }

    fn kind(&self, pack: u8) -> Result<Kind, ShelfRefusal> {
        self.kind_at(pack).ok_or(ShelfRefusal::NoPack)
    }

    fn fetch(&self, pack: u8, block: u16, buffer: &mut [u16]) -> Result<Mark, ShelfRefusal> {
        self.check(pack, block, buffer)?;
        match self.card(pack, block) {
            Some(card) => {
                buffer.copy_from_slice(&card.words);
                Ok(Mark::from(card.mark))
            }
            None => {
                buffer.fill(0);
                Ok(Mark::CLEAN)
            }
        }
    }

    fn store(&mut self, pack: u8, block: u16, buffer: &[u16]) -> Result<(), ShelfRefusal>
        ensures reply { result ≡ store_reply (card_meaning self.old) pack block buffer.now }
        ensures after { card_meaning self.new ≡ after_store (card_meaning self.old) pack block buffer.now (takes_in (card_meaning self.new)) }
        ensures lender { self.new.cards.ghost_name ≡ self.old.cards.ghost_name }
        ensures deck { self.new.cards.now ≡ card_after self.old.kinds self.old.cards.now pack block buffer.now }
    {
        self.check(pack, block, buffer)?;
        if let Some(i) = self.place(pack, block) {
            self.cards[i].overwrite(buffer);
        } else if let Some(i) = self.free_place() {
            self.cards[i].claim(pack, block, buffer);
        } else {
            return Err(ShelfRefusal::NotTaking);
        }
        Ok(())
    }
}
