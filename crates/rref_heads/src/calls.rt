//! The calls of a table that threads share. Each looks at its head once, in one atomic step, and
//! takes no memory.
ghost use Rattle.std.specs.Prelude.{◌≡◌, ◌≢◌, ℕ, ◌-◌, ◌<◌, ◌≤◌, true, false, [], ◌∷◌, List as Items, Some, None, IfOk, IfErr, IfSome, MatchOption};
ghost use Rattle.machine_defs.specs.declared.heads.HeadWord.TheVariants.{Vacant, Live};
ghost use Rattle.machine_defs.specs.Heads.{how_many, title, loan, right, known};
ghost use Rattle.machine_defs.specs.HeadSteps.{StepKind, Changes, GiveBack as giving, End as ending, looked, published, lent_once_more, lending, giving_back, releasing, without_title, taking_up, is_last as last, is_idle as idle};
ghost use Rattle.rref_heads.specs.Passes.{view, found, left, IsPassOf, IsSamePass, IsHead, MayLend, after_claim, after_look, with_released};

use crate::numbers::{ENDED, LOAN, SEAT, is_idle, is_last, number_of, word_of};
use crate::plays::{Claim, End, GiveBack, Lend, PassOn, Publish, Release, TakeUp};
use crate::table::{Changed, Heads, Pass, Payload};
use atomic_table::Seat;
use machine_defs::heads::{HeadWord, View};

// The numbers of three words.
const VACANT: u64 = 0;

const BUSY: u64 = 1;

const GONE: u64 = 2;

// A head that was just published: no loan, not ended, no receiver.
const PUBLISHED: u64 = 3;

impl Heads {
    /// Claims a vacant head, and publishes the payload. The pass then has the head's title, which
    /// knows the payload.
    ///
    /// # Errors
    ///
    /// The word that was found where the head isn't vacant, and the payload.
    pub fn claim(&self, pass: &mut Pass, h: u32, payload: Payload) -> Result<(), (Changed, Payload)>
        requires own { IsPassOf self.now pass.old × IsHead self.now h }
        ensures same { IsSamePass pass.old pass.new }
        ensures ok { IfOk result (λ _. view pass.new ≡ after_claim h payload (view pass.old)) }
        ensures changed { IfErr result (λ e. (e.0.word ≢ Vacant)
            × (view pass.new ≡ looked h e.0.word e.0.word (view pass.old))) }
        ensures payload_back { IfErr result (λ e. e.1 ≡ payload) }
    {
        let words = &self.table.shared;
        let word = h as usize;
        let was = words.compare_exchange::<Claim>(&mut pass.seat, word, VACANT, BUSY);
        if was != VACANT {
            return Err((Changed { word: word_of(was) }, payload));
        }
        match words.exchange(&mut pass.seat, word - 1, Some(payload)) {
            None => {}
            Some(_) => unreachable!(),
        }
        words.store::<Publish>(&mut pass.seat, word, PUBLISHED);
        Ok(())
    }

    /// Lends the head once more, where its word is `seen`. The pass then has one loan of it more.
    ///
    /// # Errors
    ///
    /// The word that was found, which isn't `seen`.
    pub fn lend(&self, pass: &mut Pass, h: u32, seen: HeadWord) -> Result<(), Changed>
        requires own { IsPassOf self.now pass.old × IsHead self.now h }
        requires seen { MayLend seen }
        ensures same { IsSamePass pass.old pass.new }
        ensures ok { IfOk result
            (λ _. view pass.new ≡ lending h (looked h seen (lent_once_more seen) (view pass.old))) }
        ensures changed { IfErr result (λ e. (e.word ≢ seen)
            × (view pass.new ≡ looked h e.word e.word (view pass.old))) }
    {
        let words = &self.table.shared;
        let old = number_of(seen);
        let was = words.compare_exchange::<Lend>(&mut pass.seat, h as usize, old, old + LOAN);
        if was != old {
            return Err(Changed { word: word_of(was) });
        }
        Ok(())
    }

    // The seat that has the right of release takes the payload out, and shows that the head is
    // gone.
    fn take_out(&self, seat: &mut Seat<Option<Payload>, View>, word: usize) -> Option<Payload>
        requires own { (seat.old.table_id ≡ self.now.table.shared.table_id) × IsHead self.now word
            × (1 ≤ seat.old.me.0.passes) }
        requires right { 1 ≤ how_many right word seat.old.me.0 }
        requires held { (l : Items ℕ) × (seat.old.me.1 ≡ (word - 1, Some l) ∷ []) }
        ensures same { (seat.new.table_id ≡ seat.old.table_id) × (seat.new.id ≡ seat.old.id) }
        ensures view { seat.new.me ≡ (releasing word seat.old.me.0, []) }
        ensures payload { (l : Items ℕ) → seat.old.me.1 ≡ (word - 1, Some l) ∷ [] → result ≡ Some l }
    {
        let words = &self.table.shared;
        let payload = words.exchange(seat, word - 1, None);
        words.store::<Release>(seat, word, GONE);
        payload
    }

    /// Gives a loan back, and takes the payload out where that frees the head: exactly where the
    /// word that was found had ended, and showed this loan alone. Then the head is in the released
    /// list.
    pub fn give_back(&self, pass: &mut Pass, h: u32) -> Option<Payload>
        requires own { IsPassOf self.now pass.old × IsHead self.now h }
        requires loan { 1 ≤ how_many loan h (view pass.old) }
        ensures same { IsSamePass pass.old pass.new }
        ensures exactly { MatchOption result (last (found pass.new) ≡ false) (λ _. last (found pass.new) ≡ true) }
        ensures word { Changes giving (found pass.new) (left pass.new) }
        ensures view { MatchOption result (view pass.new ≡ giving_back h (after_look h pass.old pass.new))
            (λ _. view pass.new ≡ with_released h (giving_back h (after_look h pass.old pass.new))) }
    {
        let words = &self.table.shared;
        let word = h as usize;
        let was = words.fetch_sub::<GiveBack>(&mut pass.seat, word, LOAN);
        if is_last(word_of(was)) {
            self.take_out(&mut pass.seat, word)
        } else {
            None
        }
    }

    // Adds the receiver to the word of a head of which the pass has the title.
    fn add_receiver(&self, pass: &mut Pass, h: u32, receiver: u32)
        requires own { IsPassOf self.now pass.old × IsHead self.now h }
        requires title { 1 ≤ how_many title h (view pass.old) }
        requires to { receiver < self.now.seats }
        ensures same { IsSamePass pass.old pass.new }
        ensures view { (loans : ℕ)
            × (view pass.new ≡ without_title h
            (looked h (Live loans false None) (Live loans false (Some receiver)) (view pass.old))) }
    {
        let words = &self.table.shared;
        let seat = SEAT * (u64::from(receiver) + 1);
        words.fetch_add::<PassOn>(&mut pass.seat, h as usize, seat);
    }

    /// Passes the head on to the pass of this number, which may take it up once no loan is left.
    /// The word that its look left names the receiver. The title is gone.
    pub fn pass_on(&self, pass: &mut Pass, h: u32, to: u32)
        requires own { IsPassOf self.now pass.old × IsHead self.now h }
        requires title { 1 ≤ how_many title h (view pass.old) }
        requires to { to < self.now.seats }
        ensures same { IsSamePass pass.old pass.new }
        ensures view { (loans : ℕ)
            × (view pass.new ≡ without_title h
            (looked h (Live loans false None) (Live loans false (Some to)) (view pass.old))) }
    {
        self.add_receiver(pass, h, to);
    }

    /// Takes up a head that was passed on to this pass, where its word is `seen`. The pass then has
    /// the title, which knows no payload.
    ///
    /// # Errors
    ///
    /// The word that was found, which isn't `seen`.
    pub fn take_up(&self, pass: &mut Pass, h: u32, seen: HeadWord) -> Result<(), Changed>
        requires own { IsPassOf self.now pass.old × IsHead self.now h }
        requires seen { seen ≡ Live 0 false (Some pass.old.number) }
        ensures same { IsSamePass pass.old pass.new }
        ensures ok { IfOk result (λ _. view pass.new ≡ taking_up h (looked h seen published (view pass.old))) }
        ensures changed { IfErr result (λ e. (e.word ≢ seen)
            × (view pass.new ≡ looked h e.word e.word (view pass.old))) }
    {
        let words = &self.table.shared;
        let old = number_of(seen);
        let was = words.compare_exchange::<TakeUp>(&mut pass.seat, h as usize, old, PUBLISHED);
        if was != old {
            return Err(Changed { word: word_of(was) });
        }
        Ok(())
    }

    /// Ends the head, and takes the payload out where that frees it: exactly where the word that
    /// was found showed no loan. Then the head is in the released list, and the payload is the one
    /// that the title knew, where it knew one. Else it is freed by the caller that gives the last
    /// loan back.
    pub fn end(&self, pass: &mut Pass, h: u32) -> Option<Payload>
        requires own { IsPassOf self.now pass.old × IsHead self.now h }
        requires title { 1 ≤ how_many title h (view pass.old) }
        ensures same { IsSamePass pass.old pass.new }
        ensures exactly { MatchOption result (idle (found pass.new) ≡ false) (λ _. idle (found pass.new) ≡ true) }
        ensures word { Changes ending (found pass.new) (left pass.new) }
        ensures view { MatchOption result (view pass.new ≡ without_title h (after_look h pass.old pass.new))
            (λ _. view pass.new ≡ with_released h (without_title h (after_look h pass.old pass.new))) }
        ensures payload { IfSome result (λ p. (l : Items ℕ) → known h (view pass.old).titles ≡ Some l → p ≡ l) }
    {
        let words = &self.table.shared;
        let word = h as usize;
        let was = words.fetch_add::<End>(&mut pass.seat, word, ENDED);
        if is_idle(word_of(was)) {
            self.take_out(&mut pass.seat, word)
        } else {
            None
        }
    }
}
